//! Owners that hold keys of a program's own kinds, released in the three phases.
ghost use Rattle.std.specs.Prelude.{◌≡◌, ◌↔◌, ℕ, ◌+◌, ◌^◌, ◌<◌, ◌≤◌, true, [], ◌∷◌, None, IfOk, OnOk};
ghost use Rattle.pgs_step.specs.declared.ids.KindId.{KindId as Kind};
ghost use Rattle.pgs_step.specs.declared.events.What.{What};
ghost use Rattle.pgs_step.specs.EventList.{KeepsMore};
ghost use Rattle.forest.specs.Forest.{Empty, parent_of};
ghost use Rattle.owner_kinds.specs.KindShelf.{table_of, times_held, one_at};
ghost use Rattle.owner_kinds.specs.KindTable.{IsExtension};
ghost use Rattle.owner_core.specs.Owners.{owners_of, IsLive, AllAt, HoldsNothing, held, remembered};
ghost use Rattle.owner_core.specs.Phases.{HasKinds, all_released};
ghost use Rattle.embed_example.specs.Spoken.{all_spoken};
ghost use Rattle.embed_example.specs.Filled.{scene_kinds, filled, fill_said, scene_said};

use owner_core::{OwnerError, Owners, Release, whole_release};
use owner_kinds::{CountedKind, KindShelf};
use pgs_step::{Emit, EventList, Item, KindId, Name, OwnerId, Phase, What};
use std::alloc::Global;
#[cfg(test)]
use std::test::Fail;

/// The keys that a program has open, by their kinds. It has no locks.
#[derive(Drop)]
pub struct Opened {
    /// The kinds, each with the keys that are open.
    pub kinds: KindShelf<CountedKind>,
}

impl Release for Opened {
    type Extension = CountedKind;

    ghost use Rattle.std.specs.Prelude.{◌≡◌, refl};
    ghost use Rattle.owner_kinds.specs.KindShelf.{table_of, times_held};
    ghost use Rattle.embed_example.specs.Spoken.{spoken, spoken-more};

    ghost IsFit = { λ _. Unit {0} };

    ghost counted = { λ table kind key. times_held table.kinds kind key };

    ghost kind_table = { λ table. table_of table.kinds };

    ghost does = { λ _ steps events _. events ≡ spoken steps };

    fn kinds(&self) -> &KindShelf<CountedKind> {
        &self.kinds
    }

    fn give_back<E: Emit>(&mut self, item: Item, out: &mut E) {
        self.kinds.close(item.kind, item.key);
        out.emit(What::DescriptorClosed(item.key));
    }

    fn release_owner<E: Emit>(&mut self, _owner: OwnerId, _out: &mut E) {}

    fn pass_owner<E: Emit>(&mut self, _from: OwnerId, _to: OwnerId, _out: &mut E) {}

    fn release_all<E: Emit>(&mut self, _top: OwnerId, _out: &mut E) {}

    ghost does_nothing = { λ _. refl };

    ghost does_said = { λ _ _. refl };

    ghost does_more = { λ _ _ _. spoken-more };
}

/// Releases an owner and all below it in the three phases, as an abort does.
///
/// They hold nothing then. What is said has the descendants first, phase by phase, and by priority in each.
pub fn release_phases(
    owners: &mut Owners,
    owner: OwnerId,
    top: bool,
    table: &mut Opened,
    out: &mut EventList,
)
    requires live { IsLive owners.old owner }
    requires top { (top ≡ true) ↔ (parent_of owner.number (owners_of owners.old) ≡ None) }
    requires kinds { AllAt (HasKinds (table_of table.old.kinds)) owner.number (owners_of owners.old) }
    requires counted { (kind : Kind) (key : ℕ) → held kind key (owners_of owners.old) ≤ times_held table.old.kinds kind key }
    ensures nothing { AllAt HoldsNothing owner.number (owners_of owners.new) }
    ensures owners { owners_of owners.new ≡ all_released (table_of table.old.kinds) owner.number (owners_of owners.old) }
    ensures places { owners.new.places ≡ owners.old.places }
    ensures counted { (kind : Kind) (key : ℕ) → times_held table.new.kinds kind key + held kind key (owners_of owners.old) ≡ times_held table.old.kinds kind key + held kind key (owners_of owners.new) }
    ensures said { KeepsMore out.old (all_spoken (table_of table.old.kinds) top owner.number (owners_of owners.old)) out.new }
{
    whole_release();
    let _ = table.kinds.rows();
    owners.release(owner, Phase::BeforeLocks, false, top, table, out);
    owners.release(owner, Phase::Locks, false, top, table, out);
    owners.release(owner, Phase::AfterLocks, false, top, table, out);
}

/// Opens a key of a kind, and the owner remembers it.
///
/// `TooMany` comes where the kind has no more keys, or no memory for one.
pub fn open(
    owners: &mut Owners,
    owner: OwnerId,
    kind: KindId,
    key: u32,
    table: &mut Opened,
    out: &mut EventList,
) -> Result<(), OwnerError>
    requires live { IsLive owners.old owner }
    requires kind { IsExtension (table_of table.old.kinds) kind }
    requires serial { owners.old.next_serial < 2 ^ 62 }
    ensures owners { OnOk result (owners_of owners.new ≡ remembered owner.number (record { kind = kind; key = key; serial = owners.old.next_serial }) (owners_of owners.old)) }
    ensures places { owners.new.places ≡ owners.old.places }
    ensures next_serial { OnOk result (owners.new.next_serial ≡ owners.old.next_serial + 1) }
    ensures kinds { table_of table.new.kinds ≡ table_of table.old.kinds }
    ensures times { OnOk result ((other : Kind) (q : ℕ) → times_held table.new.kinds other q ≡ times_held table.old.kinds other q + one_at kind key other q) }
    ensures said { OnOk result (KeepsMore out.old (What.Acquire (record { kind = kind; key = key; serial = owners.old.next_serial }) owner.number ∷ []) out.new) }
{
    owners.enlarge(owner)?;
    let Ok(()) = table.kinds.open(kind, key) else {
        return Err(OwnerError::TooMany);
    };
    owners.remember(owner, kind, key, out);
    Ok(())
}

const CONNECTION: KindId = KindId(KindId::FIRST_EXTENSION);

const FILE: KindId = KindId(KindId::FIRST_EXTENSION + 1);

const CURSOR: KindId = KindId(KindId::FIRST_EXTENSION + 2);

// The kinds of the scene, of which nothing is open.
fn new_table(alloc: Global) -> Result<Opened, OwnerError>
    ensures { IfOk result (λ table. table.kinds ≡ scene_kinds) }
{
    let Some(connection) = Name::new(b"connection") else {
        return Err(OwnerError::Memory);
    };
    let Some(file) = Name::new(b"file") else {
        return Err(OwnerError::Memory);
    };
    let Some(cursor) = Name::new(b"cursor") else {
        return Err(OwnerError::Memory);
    };
    let mut kinds = Vec::new(alloc);
    kinds.push(CountedKind::new(alloc, connection, Phase::BeforeLocks, 100, 8))?;
    kinds.push(CountedKind::new(alloc, file, Phase::AfterLocks, 700, 8))?;
    kinds.push(CountedKind::new(alloc, cursor, Phase::BeforeLocks, 50, 8))?;
    Ok(Opened {
        kinds: KindShelf::new(alloc, kinds)?,
    })
}

// An owner with a connection, and one below it with a file, a cursor and a newer connection.
fn fill(owners: &mut Owners, table: &mut Opened, out: &mut EventList) -> Result<OwnerId, OwnerError>
    requires new { owners.old ≡ record { rooms = Empty; places = Empty; next_owner = 1; next_serial = 1 } }
    requires kinds { table.old.kinds ≡ scene_kinds }
    ensures live { IfOk result (IsLive owners.new) }
    ensures number { IfOk result (λ top. top.number ≡ 1) }
    ensures owners { OnOk result (owners_of owners.new ≡ filled) }
    ensures kinds { table_of table.new.kinds ≡ table_of scene_kinds }
    ensures counted { OnOk result ((kind : Kind) (key : ℕ) → held kind key filled ≤ times_held table.new.kinds kind key) }
    ensures said { OnOk result (KeepsMore out.old fill_said out.new) }
{
    let top = owners.create(None, out)?;
    let child = owners.create(Some(top), out)?;
    open(owners, top, CONNECTION, 1, table, out)?;
    open(owners, child, FILE, 2, table, out)?;
    open(owners, child, CURSOR, 3, table, out)?;
    open(owners, child, CONNECTION, 4, table, out)?;
    Ok(top)
}

/// Fills an owner and one below it, releases them and discards them. How many owners live then is the answer.
pub fn scene(alloc: Global, out: &mut EventList) -> Result<u64, OwnerError>
    ensures count { IfOk result (λ count. count ≡ 0) }
    ensures said { OnOk result (KeepsMore out.old scene_said out.new) }
{
    let mut table = new_table(alloc)?;
    let mut owners = Owners::new(alloc);
    let top = fill(&mut owners, &mut table, out)?;
    release_phases(&mut owners, top, true, &mut table, out);
    owners.discard(top, out);
    Ok(owners.count())
}

#[cfg(test)]
fn item(kind: KindId, key: u32) -> Item {
    Item {
        kind,
        key,
        serial: u64::from(key),
    }
}

#[test]
fn owners_release_in_order(rt: HostRuntime) -> Result<(), Fail> {
    let mut out = EventList::new(rt.alloc(), 20)?;
    assert_eq!(rt; scene(rt.alloc(), &mut out)?, 0);
    let released = [
        (item(CURSOR, 3), 2),
        (item(CONNECTION, 4), 2),
        (item(CONNECTION, 1), 1),
        (item(FILE, 2), 2),
    ];
    for (place, (item, owner)) in released.into_iter().enumerate() {
        let said = out.events().get(6 + 2 * place).copied();
        assert_eq!(rt; said, Some(What::Release { item, owner }));
        let closed = out.events().get(7 + 2 * place).copied();
        assert_eq!(rt; closed, Some(What::DescriptorClosed(item.key)));
    }
    let gone = [What::OwnerGone(2), What::OwnerGone(1)];
    assert_eq!(rt; out.events().get(14..), Some(gone.as_slice()));
    Ok(())
}
