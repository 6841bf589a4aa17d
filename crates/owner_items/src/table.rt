ghost use Rattle.std.specs.Prelude.{◌≡◌, ◌+◌, ◌-◌, ◌*◌, ◌<◌, ◌≤◌, ◌∷◌, [], ◌++◌, true, length, reverse, find, vec_len, vec_capacity, IfOk, IfNone};
ghost use Rattle.owner_items.specs.ItemList.{is_of, without_newest};
ghost use Rattle.owner_items.specs.Table.{IsTable, live_items};

use crate::entry::Entry;
use crate::index::Index;
use pgs_step::{Item, KindId};
use std::alloc::{AllocError, Global};

/// The older items of an owner, in the order of their serials: the hash table of PostgreSQL's `ResourceOwner`.
///
/// A forgotten item's entry stays in its place, and is dead.
#[derive(Drop)]
pub(crate) struct Table {
    pub entries: Vec<Entry>,
    pub live: usize,
    pub index: Index,
}

impl Table {
    /// A table that has no room.
    pub fn new(alloc: Global) -> Table
        ensures table { IsTable result.entries.items result.live result.index.slots.items result.index.used }
        ensures items { result.entries.items ≡ [] }
    {
        Table {
            entries: Vec::new(alloc),
            live: 0,
            index: Index::new(alloc),
        }
    }

    /// A table that has room for so many items.
    pub fn with_room(alloc: Global, items: usize) -> Result<Table, AllocError>
        requires { items ≤ 4611686018427387904 }
        ensures table { IfOk result (λ table. IsTable table.entries.items table.live table.index.slots.items table.index.used) }
        ensures items { IfOk result (λ table. table.entries.items ≡ []) }
        ensures room { IfOk result (λ table. items ≤ vec_capacity table.entries) }
        ensures used { IfOk result (λ table. table.index.used ≡ 0) }
        ensures slots { IfOk result (λ table. 2 * items ≤ length table.index.slots.items) }
    {
        Ok(Table {
            entries: Vec::with_capacity(alloc, items)?,
            live: 0,
            index: Index::with_slots(alloc, (2 * items).next_power_of_two())?,
        })
    }

    /// Takes all entries out, and keeps the room for them. The index goes.
    pub fn renew(&mut self, alloc: Global)
        ensures table { IsTable self.new.entries.items self.new.live self.new.index.slots.items self.new.index.used }
        ensures items { self.new.entries.items ≡ [] }
        ensures capacity { vec_capacity self.new.entries ≡ vec_capacity self.old.entries }
    {
        self.entries.clear();
        self.live = 0;
        self.index = Index::new(alloc);
    }

    /// Appends an item, which is the newest then.
    pub fn push(&mut self, item: Item)
        requires table { IsTable self.old.entries.items self.old.live self.old.index.slots.items self.old.index.used }
        requires room { vec_len self.old.entries < vec_capacity self.old.entries }
        requires slots { self.old.index.used + 1 < length self.old.index.slots.items }
        ensures table { IsTable self.new.entries.items self.new.live self.new.index.slots.items self.new.index.used }
        ensures items { live_items (reverse self.new.entries.items) ≡ item ∷ live_items (reverse self.old.entries.items) }
        ensures len { vec_len self.new.entries ≡ vec_len self.old.entries + 1 }
        ensures capacity { vec_capacity self.new.entries ≡ vec_capacity self.old.entries }
        ensures used { self.new.index.used ≤ self.old.index.used + 1 }
        ensures slots { length self.new.index.slots.items ≡ length self.old.index.slots.items }
    {
        let older = self.index.newest(item.kind, item.key);
        self.index
            .put(item.kind, item.key, Some(self.entries.len()));
        self.entries.push_reserved(Entry {
            item,
            older,
            live: true,
        });
        self.live += 1;
    }

    /// Forgets the newest item of this kind and key, by the index alone.
    pub fn forget(&mut self, kind: KindId, key: u32) -> Option<Item>
        requires { IsTable self.old.entries.items self.old.live self.old.index.slots.items self.old.index.used }
        ensures table { IsTable self.new.entries.items self.new.live self.new.index.slots.items self.new.index.used }
        ensures newest { result ≡ find (is_of kind key) (live_items (reverse self.old.entries.items)) }
        ensures rest { live_items (reverse self.new.entries.items) ≡ without_newest (is_of kind key) (live_items (reverse self.old.entries.items)) }
        ensures len { vec_len self.new.entries ≡ vec_len self.old.entries }
        ensures capacity { vec_capacity self.new.entries ≡ vec_capacity self.old.entries }
        ensures unchanged { IfNone result (self.new ≡ self.old) }
    {
        let place = self.index.newest(kind, key)?;
        let entry = self.entries[place];
        self.entries[place].live = false;
        self.index.put(kind, key, entry.older);
        self.live -= 1;
        Some(entry.item)
    }

    /// Whether 64 more entries and 32 more kinds and keys have room.
    pub fn has_room(&self) -> bool
        ensures entries { result ≡ true → vec_len self.now.entries + 64 ≤ vec_capacity self.now.entries }
        ensures slots { result ≡ true → self.now.index.used + 32 < length self.now.index.slots.items }
        ensures enough { vec_len self.now.entries + 64 ≤ vec_capacity self.now.entries → self.now.index.used + 32 < length self.now.index.slots.items → result ≡ true }
    {
        self.entries.capacity() - self.entries.len() >= 64 && self.index.room() > 32
    }

    /// Appends the items, the newest the last.
    pub fn push_all(&mut self, items: &[Item])
        requires table { IsTable self.old.entries.items self.old.live self.old.index.slots.items self.old.index.used }
        requires room { vec_len self.old.entries + length items.now ≤ vec_capacity self.old.entries }
        requires slots { self.old.index.used + length items.now < length self.old.index.slots.items }
        ensures table { IsTable self.new.entries.items self.new.live self.new.index.slots.items self.new.index.used }
        ensures items { live_items (reverse self.new.entries.items) ≡ reverse items.now ++ live_items (reverse self.old.entries.items) }
        ensures len { vec_len self.new.entries ≡ vec_len self.old.entries + length items.now }
        ensures capacity { vec_capacity self.new.entries ≡ vec_capacity self.old.entries }
    {
        for item in items {
            self.push(*item);
        }
    }

    /// Appends the items of the live entries to a table that has none.
    pub fn push_live(&mut self, entries: &[Entry])
        requires table { IsTable self.old.entries.items self.old.live self.old.index.slots.items self.old.index.used }
        requires none { self.old.entries.items ≡ [] }
        requires unused { self.old.index.used ≡ 0 }
        requires room { length (live_items (reverse entries.now)) ≤ vec_capacity self.old.entries }
        requires slots { length (live_items (reverse entries.now)) < length self.old.index.slots.items }
        ensures table { IsTable self.new.entries.items self.new.live self.new.index.slots.items self.new.index.used }
        ensures items { live_items (reverse self.new.entries.items) ≡ live_items (reverse entries.now) }
        ensures len { vec_len self.new.entries ≡ length (live_items (reverse entries.now)) }
        ensures capacity { vec_capacity self.new.entries ≡ vec_capacity self.old.entries }
        ensures used { self.new.index.used ≤ length (live_items (reverse entries.now)) }
        ensures slots { length self.new.index.slots.items ≡ length self.old.index.slots.items }
    {
        for entry in entries {
            if entry.live {
                self.push(entry.item);
            }
        }
    }
}
