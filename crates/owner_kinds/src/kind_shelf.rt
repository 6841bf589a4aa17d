ghost use Rattle.std.specs.Prelude.{◌≡◌, ◌+◌, ◌-◌, ◌≤◌, ◌↔◌, map, slice_get, All, Contains, vec_len, IfOk, OnOk, OnErr, IfSome, IsNone};
ghost use Rattle.pgs_step.specs.declared.ids.KindId.{KindId};
ghost use Rattle.owner_kinds.specs.Different.{AreDifferent};
ghost use Rattle.owner_kinds.specs.Kind.{IsFull, opened, closed, changed_at};
ghost use Rattle.owner_kinds.specs.KindShelf.{table_of, times_held, one_at};
ghost use Rattle.owner_kinds.specs.KindTable.{IsExtension, IsSound, phase_of, priority_of, row, row_of};
ghost use Rattle.owner_kinds.specs.Place.{IsPlace};

use crate::ext_kind::{ExtKind, KindError};
use crate::kind_row::KindRow;
use pgs_step::{KindId, Name, Phase};
use std::alloc::{AllocError, Global};
use std::marker::Model;

/// The extension kinds of the program, at most 16. The first of them is kind 16.
///
/// Contracts see the list of what they stand for.
#[derive(Drop)]
pub struct KindShelf<K: ExtKind> {
    kinds: Vec<K>,
    // What never changes of each kind.
    names: Vec<Name>,
    rows: Vec<KindRow>,
}

impl<K: ExtKind> Model for KindShelf<K> {
    ghost use Rattle.std.specs.Prelude.{List, map};
    ghost use Rattle.owner_kinds.specs.Kind.{Kind};
    ghost use Rattle.owner_kinds.specs.KindShelf.{IsShelf};

    ghost Value = { List Kind };

    ghost view = { λ s. map K.kind_meaning s.kinds.items };

    ghost invariant = { λ s. IsShelf s.names.items s.rows.items (map K.kind_meaning s.kinds.items) };
}

// The row of a kind as it stands.
fn row_of_kind<K: ExtKind>(kind: &K) -> KindRow
    ensures row { result ≡ row (K.kind_meaning kind.now).phase (K.kind_meaning kind.now).priority }
    ensures place { IsPlace result }
{
    KindRow {
        phase: kind.phase(),
        priority: kind.priority(),
    }
}

fn names_of<K: ExtKind>(alloc: Global, kinds: &[K]) -> Result<Vec<Name>, AllocError>
    ensures { IfOk result (λ names. names.items ≡ map (λ kind. (K.kind_meaning kind).name) kinds.now) }
{
    let mut names = Vec::with_capacity(alloc, kinds.len())?;
    for kind in kinds {
        names.push(kind.name())?;
    }
    Ok(names)
}

fn rows_of<K: ExtKind>(alloc: Global, kinds: &[K]) -> Result<Vec<KindRow>, AllocError>
    ensures rows { IfOk result (λ rows. rows.items ≡ map (λ kind. row (K.kind_meaning kind).phase (K.kind_meaning kind).priority) kinds.now) }
    ensures places { IfOk result (λ rows. All IsPlace rows.items) }
{
    let mut rows = Vec::with_capacity(alloc, kinds.len())?;
    for kind in kinds {
        rows.push(row_of_kind(kind))?;
    }
    Ok(rows)
}

impl<K: ExtKind> KindShelf<K> {
    /// A shelf of these kinds.
    pub fn new(alloc: Global, kinds: Vec<K>) -> Result<KindShelf<K>, AllocError>
        requires few { vec_len kinds ≤ 16 }
        requires different { AreDifferent (map (λ kind. (K.kind_meaning kind).name) kinds.items) }
        ensures kinds { IfOk result (λ shelf. shelf ≡ map K.kind_meaning kinds.items) }
        ensures sound { IfOk result (λ shelf. IsSound (table_of shelf)) }
    {
        let names = names_of(alloc, &kinds)?;
        let rows = rows_of(alloc, &kinds)?;
        Ok(KindShelf { kinds, names, rows })
    }

    /// The names of the kinds, in their order.
    pub fn names(&self) -> &[Name]
        ensures value { result.now ≡ (table_of self.now).names }
        ensures sound { IsSound (table_of self.now) }
    {
        &self.names
    }

    /// The kind of the shelf that has this name.
    pub fn find(&self, name: &Name) -> Option<KindId>
        ensures none { IsNone result ↔ ¬ Contains (table_of self.now).names name.now }
        ensures extension { IfSome result (IsExtension (table_of self.now)) }
        ensures named { IfSome result (λ kind. slice_get (table_of self.now).names (kind.0 - 16) ≡ Some name.now) }
        ensures sound { IsSound (table_of self.now) }
    {
        let place = self.names.iter().position(|own| *own == *name)?;
        Some(KindId(KindId::FIRST_EXTENSION + place as u8))
    }

    /// When items of this kind are released. Of a number that is no kind's it says nothing of use.
    pub fn phase(&self, kind: KindId) -> Phase
        ensures value { IfSome (phase_of (table_of self.now) kind) (λ phase. result ≡ phase) }
        ensures sound { IsSound (table_of self.now) }
    {
        match self.row(kind) {
            Some(row) => row.phase,
            None => Phase::AfterLocks,
        }
    }

    /// The place of this kind in its phase. Of a number that is no kind's it says nothing of use.
    pub fn priority(&self, kind: KindId) -> u32
        ensures value { IfSome (priority_of (table_of self.now) kind) (λ priority. result ≡ priority) }
        ensures sound { IsSound (table_of self.now) }
    {
        match self.row(kind) {
            Some(row) => row.priority,
            None => 0,
        }
    }

    /// When the items of the extension kinds are released, in their order.
    pub fn rows(&self) -> &[KindRow]
        ensures value { result.now ≡ (table_of self.now).rows }
        ensures sound { IsSound (table_of self.now) }
    {
        &self.rows
    }

    /// When items of this kind are released, if there is such a kind.
    #[tactic(auto, unfolding(crate::specs::KindTable::row_of))]
    pub fn row(&self, kind: KindId) -> Option<KindRow>
        ensures row { result ≡ row_of (table_of self.now) kind }
        ensures sound { IsSound (table_of self.now) }
    {
        if kind.0 >= KindId::FIRST_EXTENSION {
            return self
                .rows
                .get((kind.0 - KindId::FIRST_EXTENSION) as usize)
                .copied();
        }
        if kind.0 == 0 {
            return None;
        }
        BUILT_IN.get((kind.0 - 1) as usize).copied()
    }

    /// Opens a key of an extension kind.
    pub fn open(&mut self, kind: KindId, key: u32) -> Result<(), KindError>
        requires { IsExtension (table_of self.old) kind }
        ensures ok { OnOk result (self.new ≡ changed_at (kind.0 - 16) (opened key) self.old) }
        ensures err { OnErr result (self.new ≡ self.old) }
        ensures table { table_of self.new ≡ table_of self.old }
        ensures sound { IsSound (table_of self.new) }
        ensures times { OnOk result ((other : KindId) (q : _) → times_held self.new other q ≡ times_held self.old other q + one_at kind key other q) }

        // Where the kind holds as many keys as it may it answers Full, and nowhere else.
        ensures full { (result ≡ Err KindError.Full) ↔ IfSome (slice_get self.old (kind.0 - 16)) IsFull }
    {
        self.kinds[(kind.0 - KindId::FIRST_EXTENSION) as usize].open(key)
    }

    /// Closes a key of an extension kind, which must hold it. It cannot fail.
    pub fn close(&mut self, kind: KindId, key: u32)
        requires { 1 ≤ times_held self.old kind key }
        ensures after { self.new ≡ changed_at (kind.0 - 16) (closed key) self.old }
        ensures table { table_of self.new ≡ table_of self.old }
        ensures sound { IsSound (table_of self.new) }
        ensures times { (other : KindId) (q : _) → times_held self.new other q + one_at kind key other q ≡ times_held self.old other q }
    {
        self.kinds[(kind.0 - KindId::FIRST_EXTENSION) as usize].close(key);
    }
}

// The kinds that are built in, the first of them kind 1.
const BUILT_IN: [KindRow; 8] = [
    KindRow {
        phase: Phase::BeforeLocks,
        priority: 200,
    },
    KindRow {
        phase: Phase::BeforeLocks,
        priority: 300,
    },
    KindRow {
        phase: Phase::AfterLocks,
        priority: 100,
    },
    KindRow {
        phase: Phase::AfterLocks,
        priority: 200,
    },
    KindRow {
        phase: Phase::AfterLocks,
        priority: 300,
    },
    KindRow {
        phase: Phase::AfterLocks,
        priority: 400,
    },
    KindRow {
        phase: Phase::AfterLocks,
        priority: 500,
    },
    KindRow {
        phase: Phase::AfterLocks,
        priority: 600,
    },
];
