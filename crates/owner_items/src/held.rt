ghost use Rattle.std.specs.Prelude.{◌≡◌, ◌↔◌, ◌+◌, ◌<◌, ◌≤◌, ◌∷◌, ◌++◌, [], length, reverse, find, vec_capacity, true, false, None, All, IsNone, IsSome, OnOk, OnErr, IfNone, IfSome, MatchOption};
ghost use Rattle.std.specs.Option.{option_to_list};
ghost use Rattle.owner_kinds.specs.KindShelf.{table_of};
ghost use Rattle.owner_kinds.specs.KindTable.{IsKind};
ghost use Rattle.owner_items.specs.ItemList.{AreFalling, is_of, without_newest, without_serial};
ghost use Rattle.owner_items.specs.Table.{live_items};
ghost use Rattle.owner_items.specs.Gathered.{all_items};
ghost use Rattle.owner_items.specs.Next.{is_of_phase, items_left, release_order};
ghost use Rattle.owner_items.specs.Held.{IsHeld, HasRoom, IsGathered, IsNextOf, items_of, spare_of};

use crate::gather::{
    append_items, has_entry, has_item, keep_live, newest_entry, newest_of, sort_by_serial,
    sort_for_release,
};
use crate::ranking::{Order, rank_of};
use crate::table::Table;
use arrayvec::ArrayVec;
use owner_kinds::{ExtKind, KindShelf};
use pgs_step::{Item, KindId, Phase};
use std::alloc::{AllocError, Global};

/// The items in two parts: the newest, up to 32, in an array, and those that are older in a table.
///
/// The release of a phase gathers them in the table in the order of the release, until `enlarge` parts them. Where the
/// array has the only item, it is taken from there.
#[derive(Drop)]
pub(crate) struct Held {
    pub recent: ArrayVec<Item, 32>,
    pub table: Table,
    /// The order of the table's entries, where all items are gathered in it.
    pub order: Option<Order>,
    pub alloc: Global,
}

// No memory holds more.
const MOST_ITEMS: usize = 1 << 40;

// How many items the array holds.
const ARRAY_ITEMS: usize = 32;

impl Held {
    pub fn new(alloc: Global) -> Held
        ensures held { IsHeld result }
        ensures items { items_of result ≡ [] }
    {
        Held {
            recent: ArrayVec::new(),
            table: Table::new(alloc),
            order: None,
            alloc,
        }
    }

    pub fn spare(&self) -> usize
        requires { IsHeld self.now }
        ensures { result ≡ spare_of self.now }
    {
        let entries = &self.table.entries;
        if self.order.is_some() || entries.capacity() - entries.len() < 32 {
            return 0;
        }
        32 - self.recent.len()
    }

    pub fn len(&self) -> usize
        requires { IsHeld self.now }
        ensures { result ≡ length (items_of self.now) }
    {
        self.table.live + self.recent.len()
    }

    pub fn remember(&mut self, item: Item)
        requires held { IsHeld self.old }
        requires spare { 1 ≤ spare_of self.old }
        requires newest { All (λ other. other.serial < item.serial) (items_of self.old) }
        ensures held { IsHeld self.new }
        ensures items { items_of self.new ≡ item ∷ items_of self.old }
        ensures spare { spare_of self.old ≤ spare_of self.new + 1 }
    {
        self.recent.push(item);
    }

    #[inline]
    pub fn enlarge(&mut self) -> Result<(), AllocError>
        requires { IsHeld self.old }
        ensures held { IsHeld self.new }
        ensures ok { OnOk result (1 ≤ spare_of self.new) }
        ensures spare { spare_of self.old ≤ spare_of self.new }
        ensures items { items_of self.new ≡ items_of self.old }
        ensures err { OnErr result (self.new ≡ self.old) }
    {
        if self.spare() > 0 {
            return Ok(());
        }
        self.make_room()
    }

    // Makes room for the whole array, where it has none or the table hasn't.
    #[inline(never)]
    fn make_room(&mut self) -> Result<(), AllocError>
        requires { IsHeld self.old }
        ensures held { IsHeld self.new }
        ensures ok { OnOk result (1 ≤ spare_of self.new) }
        ensures spare { spare_of self.old ≤ spare_of self.new }
        ensures items { items_of self.new ≡ items_of self.old }
        ensures err { OnErr result (self.new ≡ self.old) }
    {
        if self.order.is_none() && self.table.entries.capacity() == 0 {
            return self.begin();
        }
        if self.order.is_some() || !self.table.has_room() {
            self.rebuild()?;
        }
        self.table.push_all(self.recent.as_slice());
        self.recent.clear();
        Ok(())
    }

    /// Forgets all items. The room that was made is there for the next ones.
    pub fn renew(&mut self)
        ensures held { IsHeld self.new }
        ensures items { items_of self.new ≡ [] }
    {
        self.recent.clear();
        self.table.renew(self.alloc);
        self.order = None;
    }

    // Makes room for the first items: those of the array, and in the table for a release that gathers them. An index isn't needed yet.
    fn begin(&mut self) -> Result<(), AllocError>
        requires held { IsHeld self.old }
        requires parted { self.old.order ≡ None }
        requires bare { vec_capacity self.old.table.entries ≡ 0 }
        ensures held { IsHeld self.new }
        ensures ok { OnOk result (1 ≤ spare_of self.new) }
        ensures spare { spare_of self.old ≤ spare_of self.new }
        ensures items { items_of self.new ≡ items_of self.old }
        ensures err { OnErr result (self.new ≡ self.old) }
    {
        self.table.entries = Vec::with_capacity(self.alloc, ARRAY_ITEMS)?;
        Ok(())
    }

    // Parts the items anew, with a table of live entries only that has room for as many again.
    fn rebuild(&mut self) -> Result<(), AllocError>
        requires { IsHeld self.old }
        ensures held { IsHeld self.new }
        ensures items { items_of self.new ≡ items_of self.old }
        ensures ok { OnOk result (HasRoom self.new) }
        ensures err { OnErr result (self.new ≡ self.old) }
    {
        let live = self.table.live;
        if live > MOST_ITEMS {
            return Err(AllocError);
        }
        let mut table = Table::with_room(self.alloc, 2 * live + 64)?;
        self.put_in_order();
        table.push_live(&self.table.entries);
        self.table = table;
        self.order = None;
        Ok(())
    }

    // Puts gathered items in the order of their serials.
    fn put_in_order(&mut self)
        requires { IsHeld self.old }
        ensures falling { AreFalling (all_items self.new.recent.items self.new.table.entries.items) }
        ensures all { all_items self.new.recent.items self.new.table.entries.items ≡ items_of self.old }
        ensures live { length (live_items (reverse self.new.table.entries.items)) ≡ self.old.table.live }
        ensures recent { self.new.recent ≡ self.old.recent }
    {
        if self.order.is_none() {
            return;
        }
        sort_by_serial(&mut self.table.entries);
    }

    pub fn forget(&mut self, kind: KindId, key: u32) -> Option<Item>
        requires { IsHeld self.old }
        ensures held { IsHeld self.new }
        ensures newest { result ≡ find (is_of kind key) (items_of self.old) }
        ensures rest { items_of self.new ≡ without_newest (is_of kind key) (items_of self.old) }
        ensures spare { spare_of self.old ≤ spare_of self.new }
        ensures unchanged { IfNone result (self.new ≡ self.old) }
    {
        if self.order.is_some() {
            return self.forget_gathered(kind, key);
        }
        if let Some(place) = newest_of(self.recent.as_slice(), kind, key) {
            return Some(self.recent.remove(place));
        }
        self.table.forget(kind, key)
    }

    // Forgets an item of those that are gathered: it looks at all of them.
    fn forget_gathered(&mut self, kind: KindId, key: u32) -> Option<Item>
        requires held { IsHeld self.old }
        requires gathered { IsSome self.old.order }
        ensures held { IsHeld self.new }
        ensures newest { result ≡ find (is_of kind key) (items_of self.old) }
        ensures rest { items_of self.new ≡ without_newest (is_of kind key) (items_of self.old) }
        ensures order { self.new.order ≡ self.old.order }
        ensures unchanged { IfNone result (self.new ≡ self.old) }
    {
        let place = newest_entry(&self.table.entries, kind, key)?;
        let entry = self.table.entries.remove(place);
        self.table.live -= 1;
        Some(entry.item)
    }

    #[inline]
    pub fn take_next<K: ExtKind>(&mut self, kinds: &KindShelf<K>, phase: Phase) -> Option<Item>
        requires { IsHeld self.old }
        ensures held { IsHeld self.new }
        ensures next { MatchOption result (All (λ item. is_of_phase (table_of kinds.now) phase item ≡ false) (items_of self.old)) (λ item. IsNextOf (table_of kinds.now) phase (items_of self.old) item (items_of self.new)) }
        ensures unchanged { IfNone result (self.new ≡ self.old) }
    {
        if let Some(item) = self.take_only(kinds, phase) {
            return Some(item);
        }
        self.take_in_turn(kinds, phase)
    }

    // Takes the item of the array, where it is the only one and of this phase: nothing is to be put in order then.
    #[inline]
    fn take_only<K: ExtKind>(&mut self, kinds: &KindShelf<K>, phase: Phase) -> Option<Item>
        requires { IsHeld self.old }
        ensures held { IsHeld self.new }
        ensures next { IfSome result (λ item. IsNextOf (table_of kinds.now) phase (items_of self.old) item (items_of self.new)) }
        ensures unchanged { IfNone result (self.new ≡ self.old) }
    {
        if self.recent.len() != 1 || self.table.live != 0 {
            return None;
        }
        let item = self.recent.as_slice()[0];
        if rank_of(&item, kinds, phase) == 0 {
            return None;
        }
        self.recent.clear();
        Some(item)
    }

    // Takes the next item of those that are gathered in the order of this phase's release, or are so first.
    fn take_in_turn<K: ExtKind>(&mut self, kinds: &KindShelf<K>, phase: Phase) -> Option<Item>
        requires { IsHeld self.old }
        ensures held { IsHeld self.new }
        ensures next { MatchOption result (All (λ item. is_of_phase (table_of kinds.now) phase item ≡ false) (items_of self.old)) (λ item. IsNextOf (table_of kinds.now) phase (items_of self.old) item (items_of self.new)) }
        ensures unchanged { IfNone result (self.new ≡ self.old) }
    {
        if !self.is_ready(kinds, phase) {
            if !self.has_item_of(kinds, phase) {
                return None;
            }
            self.gather(kinds, phase);
        }
        self.take_last(kinds, phase)
    }

    // Whether the items are gathered in the order of this phase's release.
    fn is_ready<K: ExtKind>(&self, kinds: &KindShelf<K>, phase: Phase) -> bool
        requires { IsHeld self.now }
        ensures { result ≡ true → IsGathered (table_of kinds.now) phase self.now }
    {
        match &self.order {
            Some(order) => order.is_for(kinds, phase),
            None => false,
        }
    }

    fn has_item_of<K: ExtKind>(&self, kinds: &KindShelf<K>, phase: Phase) -> bool
        ensures none { result ≡ false → All (λ item. is_of_phase (table_of kinds.now) phase item ≡ false) (items_of self.now) }
        ensures some { result ≡ true → All (λ item. is_of_phase (table_of kinds.now) phase item ≡ false) (items_of self.now) → ⊥ }
    {
        has_item(self.recent.as_slice(), kinds, phase)
            || has_entry(&self.table.entries, kinds, phase)
    }

    fn gather<K: ExtKind>(&mut self, kinds: &KindShelf<K>, phase: Phase)
        requires { IsHeld self.old }
        ensures held { IsHeld self.new }
        ensures items { items_of self.new ≡ items_of self.old }
        ensures ready { IsGathered (table_of kinds.now) phase self.new }
    {
        keep_live(&mut self.table.entries);
        append_items(&mut self.table.entries, self.recent.as_slice());
        self.recent.clear();
        self.table.live = self.table.entries.len();
        sort_for_release(&mut self.table.entries, kinds, phase);
        self.order = Some(Order::new(kinds, phase));
    }

    fn take_last<K: ExtKind>(&mut self, kinds: &KindShelf<K>, phase: Phase) -> Option<Item>
        requires held { IsHeld self.old }
        requires ready { IsGathered (table_of kinds.now) phase self.old }
        ensures held { IsHeld self.new }
        ensures next { MatchOption result (All (λ item. is_of_phase (table_of kinds.now) phase item ≡ false) (items_of self.old)) (λ item. IsNextOf (table_of kinds.now) phase (items_of self.old) item (items_of self.new)) }
        ensures unchanged { IfNone result (self.new ≡ self.old) }
    {
        let last = *self.table.entries.last()?;
        if rank_of(&last.item, kinds, phase) == 0 {
            return None;
        }
        self.table.entries.pop();
        self.table.live -= 1;
        Some(last.item)
    }

    // The next item of this phase, as the order of its release has it.
    #[inline]
    pub fn take_in_order<K: ExtKind>(&mut self, kinds: &KindShelf<K>, phase: Phase) -> Option<Item>
        requires held { IsHeld self.old }
        requires kinds { All (λ item. IsKind (table_of kinds.now) item.kind) (items_of self.old) }
        ensures held { IsHeld self.new }
        ensures none { IsNone result ↔ (release_order (table_of kinds.now) phase (items_of self.old) ≡ []) }
        ensures order { release_order (table_of kinds.now) phase (items_of self.old) ≡ option_to_list result ++ release_order (table_of kinds.now) phase (items_of self.new) }
        ensures rest { IfSome result (λ item. items_of self.new ≡ without_serial item.serial (items_of self.old)) }
        ensures left { items_left (table_of kinds.now) phase (items_of self.new) ≡ items_left (table_of kinds.now) phase (items_of self.old) }
        ensures done { IfNone result (items_left (table_of kinds.now) phase (items_of self.new) ≡ items_of self.new) }
        ensures unchanged { IfNone result (self.new ≡ self.old) }
        ensures kinds { All (λ item. IsKind (table_of kinds.now) item.kind) (items_of self.new) }
    {
        self.take_next(kinds, phase)
    }
}
