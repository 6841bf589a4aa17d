//! One owner, as its forest keeps it.
ghost use Rattle.std.specs.Prelude.{◌≡◌, ◌≢◌, ◌↔◌, ℕ, ◌+◌, ◌<◌, ◌≤◌, Bool, true, false, List, [], ◌∷◌, All, find, IsTrue, IsOk, IfOk, OnOk, OnErr};
ghost use Rattle.std.specs.Option.{ok_or};
ghost use Rattle.owner_core.specs.Owners.{Roomy};
ghost use Rattle.owner_items.specs.ItemList.{is_of, without_newest};

use crate::errors::OwnerError;
use owner_items::Items;
use pgs_step::{Item, KindId};
use std::alloc::Global;
use std::marker::Model;

/// The rooms of how many owners are kept at most for the next ones.
const MOST_LEFT: usize = 64;

/// An owner: whether its release has begun, and its items.
#[derive(Drop)]
pub struct Node {
    pub begun: bool,
    pub items: Items,
}

impl Model for Node {
    ghost use Rattle.owner_core.specs.Owners.{Roomy};

    ghost Value = { Roomy };

    ghost view = { λ n. record { owner = record { begun = n.begun; items = n.items.items }; spare = n.items.spare } };
}

impl Node {
    /// An owner with no item, in the room that another one left, if there is any.
    #[inline]
    pub fn new(alloc: Global, left: &mut Vec<Items>) -> Node
        ensures { result.owner ≡ record { begun = false; items = [] } }
    {
        match left.pop() {
            Some(items) if items.len() == 0 => Node {
                begun: false,
                items,
            },
            _ => Node {
                begun: false,
                items: Items::new(alloc),
            },
        }
    }

    /// Leaves its room for another owner, where it has any and not too much is left already.
    #[inline]
    pub fn leave(self, left: &mut Vec<Items>) {
        let Node { mut items, .. } = self;
        items.renew();
        if items.spare() > 0 && left.len() < MOST_LEFT {
            let _ = left.push(items);
        }
    }

    /// For how many more items there is room.
    pub fn spare(&self) -> usize
        ensures { result ≡ self.now.spare }
    {
        self.items.spare()
    }

    /// Makes room for one more item, unless the release has begun.
    pub fn enlarge(&mut self) -> Result<(), OwnerError>
        ensures owner { self.new.owner ≡ self.old.owner }
        ensures spare { OnOk result (1 ≤ self.new.spare) }
        ensures releasing { (result ≡ Err OwnerError.Releasing) ↔ (self.old.owner.begun ≡ true) }
        ensures refused { OnErr result (self.new ≡ self.old) }
        ensures not_too_many { result ≢ Err OwnerError.TooMany }
        ensures not_owned { result ≢ Err OwnerError.NotOwned }
    {
        if self.begun {
            return Err(OwnerError::Releasing);
        }
        self.items.enlarge()?;
        Ok(())
    }

    /// Remembers an item in room that `enlarge` made.
    pub fn remember(&mut self, item: Item)
        requires spare { 1 ≤ self.old.spare }
        requires newest { All (λ other. other.serial < item.serial) self.old.owner.items }
        ensures owner { self.new.owner ≡ record self.old.owner { items = item ∷ self.old.owner.items } }
        ensures spare { self.old.spare ≤ self.new.spare + 1 }
    {
        self.items.remember(item);
    }

    /// Forgets the newest item of this kind and key, unless the release has begun.
    pub fn forget(&mut self, kind: KindId, key: u32) -> Result<Item, OwnerError>
        ensures item { self.old.owner.begun ≡ false → result ≡ ok_or (find (is_of kind key) self.old.owner.items) OwnerError.NotOwned }
        ensures releasing { self.old.owner.begun ≡ true → result ≡ Err OwnerError.Releasing }
        ensures rest { OnOk result (self.new.owner ≡ record self.old.owner { items = without_newest (is_of kind key) self.old.owner.items }) }
        ensures refused { OnErr result (self.new ≡ self.old) }
    {
        if self.begun {
            return Err(OwnerError::Releasing);
        }
        self.items.forget(kind, key).ok_or(OwnerError::NotOwned)
    }
}
