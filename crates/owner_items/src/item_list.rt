ghost use Rattle.std.specs.Prelude.{◌≡◌, ◌+◌, ◌<◌, ◌≤◌, [], ◌∷◌, ◌++◌, ◌&&◌, ◌||◌, nat_le, length, find, All, OnOk, OnErr, IfSome, IfNone, IsNone, ◌↔◌};
ghost use Rattle.std.specs.Option.{option_to_list};
ghost use Rattle.owner_items.specs.ItemList.{AreFalling, is_of, without_newest, without_serial};
ghost use Rattle.owner_items.specs.Next.{is_of_phase, priority, release_order, items_left};
ghost use Rattle.owner_kinds.specs.KindShelf.{table_of};
ghost use Rattle.owner_kinds.specs.KindTable.{IsKind};

use crate::held::Held;
use owner_kinds::{ExtKind, KindShelf};
use pgs_step::{Item, KindId, Phase};
use std::alloc::{AllocError, Global};
use std::marker::Model;

/// For how many older items the room of an owner that goes is kept at most.
const MOST_KEPT: usize = 64;

/// The items that one owner remembers: an array of the newest 32 and a table of the others, as in PostgreSQL's
/// `ResourceOwner`.
///
/// They lie in a box, which is made with the first room, so that an owner that holds nothing is small. Contracts see the
/// list of the items, newest first. Their serials fall along it.
#[derive(Drop)]
pub struct Items {
    held: Option<Box<Held>>,
    alloc: Global,
}

impl Model for Items {
    ghost use Rattle.owner_items.specs.ItemList.{ItemList};
    ghost use Rattle.owner_items.specs.Boxed.{list_in, IsSound};

    ghost Value = { ItemList };

    ghost view = { λ s. list_in s.held };

    ghost invariant = { λ s. IsSound s.held };
}

impl Items {
    /// No items yet.
    pub fn new(alloc: Global) -> Items
        ensures { result.items ≡ [] }
    {
        Items { held: None, alloc }
    }

    /// How many more items may be remembered without memory.
    pub fn spare(&self) -> usize
        ensures spare { result ≡ self.now.spare }
        ensures falling { AreFalling self.now.items }
    {
        match &self.held {
            Some(held) => held.spare(),
            None => 0,
        }
    }

    /// How many items are remembered.
    pub fn len(&self) -> usize
        ensures count { result ≡ length self.now.items }
        ensures falling { AreFalling self.now.items }
    {
        match &self.held {
            Some(held) => held.len(),
            None => 0,
        }
    }

    /// Makes room for one more item: `ResourceOwnerEnlarge`. Over many calls it takes constant time.
    ///
    /// The error comes where memory is refused. It also comes where the table of the older items has to be
    /// made anew and has more than 2^40 of them, which no memory holds.
    #[inline]
    pub fn enlarge(&mut self) -> Result<(), AllocError>
        ensures ok { OnOk result (1 ≤ self.new.spare) }
        ensures spare { self.old.spare ≤ self.new.spare }
        ensures items { self.new.items ≡ self.old.items }
        ensures err { OnErr result (self.new ≡ self.old) }
        ensures falling { AreFalling self.new.items }
    {
        match &mut self.held {
            Some(held) => held.enlarge(),
            None => {
                let mut held = Box::new(self.alloc, Held::new(self.alloc))?;
                held.enlarge()?;
                self.held = Some(held);
                Ok(())
            }
        }
    }

    /// Forgets all items, for another owner. Room for up to 64 older ones is kept, and more is given back.
    pub fn renew(&mut self)
        ensures items { self.new.items ≡ [] }
    {
        if let Some(held) = &mut self.held {
            if held.table.entries.capacity() <= MOST_KEPT {
                held.renew();
                return;
            }
        }
        self.held = None;
    }

    /// Remembers an item, which is the newest then: `ResourceOwnerRemember`. It uses room that `enlarge` made.
    pub fn remember(&mut self, item: Item)
        requires spare { 1 ≤ self.old.spare }
        requires newest { All (λ other. other.serial < item.serial) self.old.items }
        ensures items { self.new.items ≡ item ∷ self.old.items }
        ensures spare { self.old.spare ≤ self.new.spare + 1 }
        ensures falling { AreFalling self.new.items }
    {
        match &mut self.held {
            Some(held) => held.remember(item),
            None => unreachable!(),
        }
    }

    /// Forgets the newest item of this kind and key: `ResourceOwnerForget`.
    ///
    /// It takes constant time, but while the items are in the order of a release: then it looks at all of them.
    pub fn forget(&mut self, kind: KindId, key: u32) -> Option<Item>
        ensures newest { result ≡ find (is_of kind key) self.old.items }
        ensures rest { self.new.items ≡ without_newest (is_of kind key) self.old.items }
        ensures spare { self.old.spare ≤ self.new.spare }
        ensures unchanged { IfNone result (self.new ≡ self.old) }
        ensures falling { AreFalling self.new.items }
    {
        match &mut self.held {
            Some(held) => held.forget(kind, key),
            None => None,
        }
    }

    /// Takes the item that is released next in this phase, if any is left: of those with the lowest
    /// priority number the newest. It takes no memory.
    ///
    /// The first call of a phase that finds an item sorts all items, but where the array has the only one; the
    /// others take constant time. After the sort nothing is spare until `enlarge`.
    #[inline]
    pub fn take_next<K: ExtKind>(&mut self, kinds: &KindShelf<K>, phase: Phase) -> Option<Item>
        requires { All (λ item. IsKind (table_of kinds.now) item.kind) self.old.items }
        ensures none { IsNone result ↔ (release_order (table_of kinds.now) phase self.old.items ≡ []) }

        // So calls until the first None take the items in just that order.
        ensures order { release_order (table_of kinds.now) phase self.old.items ≡ option_to_list result ++ release_order (table_of kinds.now) phase self.new.items }
        ensures rest { IfSome result (λ item. self.new.items ≡ without_serial item.serial self.old.items) }
        ensures left { items_left (table_of kinds.now) phase self.new.items ≡ items_left (table_of kinds.now) phase self.old.items }
        ensures done { IfNone result (items_left (table_of kinds.now) phase self.new.items ≡ self.new.items) }
        ensures unchanged { IfNone result (self.new ≡ self.old) }
        ensures kinds { All (λ item. IsKind (table_of kinds.now) item.kind) self.new.items }
        ensures falling { AreFalling self.new.items }
    {
        match &mut self.held {
            Some(held) => held.take_in_order(kinds, phase),
            None => None,
        }
    }
}
