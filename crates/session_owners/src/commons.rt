//! What the sessions of a run share of resources, lent to one of them at a time.
ghost use Rattle.std.specs.Prelude.{◌≡◌, [], replicate, IfOk, IfSome};
ghost use Rattle.owner_kinds.specs.KindShelf.{table_of};
ghost use Rattle.owner_kinds.specs.KindTable.{IsExtension, IsSound};
ghost use Rattle.session_rules.specs.Lookup.{kind_named};

use lock_shared::SharedLocks;
use owner_kinds::{ExtKind, KindError, KindShelf};
use pgs_step::{KindId, Name};
use pin_table::SharedPins;
use std::alloc::{AllocError, Global};
use std::marker::Model;
use std::mem;

/// What the sessions of a run share of resources: the extension kinds with the keys that they hold, who holds which
/// lock, and how many sessions pin each buffer.
#[derive(Drop)]
pub struct Commons<K: ExtKind> {
    pub(crate) kinds: KindShelf<K>,
    pub(crate) locks: SharedLocks,
    pub(crate) pins: SharedPins,
}

impl<K: ExtKind> Model for Commons<K> {
    ghost use Rattle.session_owners.specs.Commons.{CommonState};

    ghost Value = { CommonState };

    ghost view = { λ c. record { kinds = c.kinds; locks = c.locks; pins = c.pins } };
}

impl<K: ExtKind> Commons<K> {
    /// No kind, no lock is held, and no buffer is pinned. It fails for want of memory alone.
    pub fn new(alloc: Global) -> Result<Commons<K>, AllocError>
        ensures { IfOk result (λ commons. commons ≡ record { kinds = []; locks = []; pins = replicate 1024 0 }) }
    {
        Ok(Commons {
            kinds: KindShelf::new(alloc, Vec::new(alloc))?,
            locks: SharedLocks::new(alloc),
            pins: SharedPins::new(alloc)?,
        })
    }

    /// The kinds of the two change places.
    pub fn swap_kinds(&mut self, kinds: &mut KindShelf<K>)
        ensures swapped { self.new ≡ record { kinds = kinds.old; locks = self.old.locks; pins = self.old.pins } }
        ensures given { kinds.new ≡ self.old.kinds }
    {
        mem::swap(&mut self.kinds, kinds);
    }

    /// The extension kind of this name.
    pub fn find(&self, name: &Name) -> Option<KindId>
        ensures kind { result ≡ kind_named name.now self.now.kinds }
        ensures extension { IfSome result (IsExtension (table_of self.now.kinds)) }
        ensures sound { IsSound (table_of self.now.kinds) }
    {
        self.kinds.find(name)
    }

    /// The names of the kinds, in their order.
    pub fn names(&self) -> &[Name]
        ensures value { result.now ≡ (table_of self.now.kinds).names }
        ensures sound { IsSound (table_of self.now.kinds) }
    {
        self.kinds.names()
    }
}
