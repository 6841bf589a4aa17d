//! Keys by their ranks.
ghost use Rattle.std.specs.Prelude.{◌≡◌, ◌≢◌, ℕ, ◌+◌, ◌*◌, ◌<◌, ◌≤◌, ◌==◌, Some, None, IfSome, IfOk, OnOk, true, false, if◌then◌else◌, [], length};
ghost use Rattle.slab_ctx.specs.Tree.{Leads};
ghost use Rattle.std.specs.Map.{keys_of};
ghost use Rattle.slab_ctx.specs.Ranks.{rank_at, entry_of, entry_in, current_in};
ghost use Rattle.slab_ctx.specs.declared.tree.Entry.{Entry};
ghost use Rattle.slab_ctx.specs.declared.tree.Rank.{Rank};

use crate::tree::{Entry, Rank, Tree, lesser};
use indexmap::IndexMap;
use std::alloc::{AllocError, Global};

/// Keys with their ranks.
#[derive(Drop)]
pub struct Ranks {
    pub entries: IndexMap<u32, Rank>,
    // The place of an entry is its index. The tree has none of the current one.
    pub tree: Tree,
    // The place of the entry that was put last. To put it once more leaves the tree as it is.
    pub current: Option<usize>,
    pub alloc: Global,
}

// Gives the key at a place another rank.
#[tactic(auto, using(crate::proofs::Placed::written))]
fn change(entries: &mut IndexMap<u32, Rank>, place: usize, key: u32, rank: Rank)
    requires { (e : Entry) × (entry_in entries.old.entries place ≡ Some e) × (e.key ≡ key) }
    ensures places { (p : ℕ) → entry_in entries.new.entries p ≡ (if place == p then Some (entry_of (key, rank)) else entry_in entries.old.entries p) }
    ensures keys { keys_of entries.new.entries ≡ keys_of entries.old.entries }
    ensures len { length entries.new.entries ≡ length entries.old.entries }
    ensures at { (other : ℕ) → rank_at entries.new.entries other ≡ (if key == other then Some rank else rank_at entries.old.entries other) }
{
    match entries.get_index_mut(place) {
        Some(slot) => *slot = rank,
        None => unreachable!(),
    }
}

impl Ranks {
    ghost use Rattle.slab_ctx.specs.Ranks.{IsRanked, HasRoom};

    // No key.
    pub fn new(alloc: Global) -> Ranks
        ensures ranked { IsRanked result }
        ensures empty { result.entries.entries ≡ [] }
    {
        Ranks {
            entries: IndexMap::new(alloc),
            tree: Tree::empty(alloc),
            current: None,
            alloc,
        }
    }

    // The entry at a place.
    fn entry(&self, place: usize) -> Option<Entry>
        ensures { result ≡ entry_in self.now.entries.entries place }
    {
        let (key, rank) = self.entries.get_index(place)?;
        Some(Entry {
            key: *key,
            rank: *rank,
        })
    }

    // The current entry.
    fn current_entry(&self) -> Option<Entry>
        ensures { result ≡ current_in self.now.current self.now.entries.entries }
    {
        self.entry(self.current?)
    }

    // Puts the current entry in the tree, so that none is current.
    fn settle(&mut self)
        requires ranked { IsRanked self.old }
        ensures ranked { IsRanked self.new }
        ensures same { self.new.entries ≡ self.old.entries }
        ensures places { self.new.tree.places ≡ self.old.tree.places }
        ensures none { self.new.current ≡ None }
    {
        let Some(place) = self.current else {
            return;
        };
        let entry = self.entry(place);
        self.tree.set(place, entry);
        self.current = None;
    }

    // Makes a tree of more places.
    fn grow(&mut self) -> Result<(), AllocError>
        requires ranked { IsRanked self.old }
        ensures ranked { IsRanked self.new }
        ensures same { self.new.entries ≡ self.old.entries }
        ensures places { OnOk result (length self.new.entries.entries < self.new.tree.places) }
    {
        let len = self.entries.len();
        let mut tree = Tree::new(self.alloc, 2 * len + 2)?;
        for place in 0..len {
            let entry = self.tree.leaf(place);
            tree.set(place, entry);
        }
        self.tree = tree;
        Ok(())
    }

    // Makes room for one more key.
    pub fn make_room(&mut self) -> Result<(), AllocError>
        requires ranked { IsRanked self.old }
        ensures ranked { IsRanked self.new }
        ensures same { self.new.entries.entries ≡ self.old.entries.entries }
        ensures room { OnOk result (HasRoom self.new) }
    {
        self.entries.reserve(1)?;
        if self.entries.len() < self.tree.places {
            return Ok(());
        }
        self.grow()
    }

    // The place of the current entry, where it is that of a key.
    fn current_of(&self, key: u32) -> Option<usize>
        ensures { IfSome result (λ place. (self.now.current ≡ Some place) × ((e : Entry) × (entry_in self.now.entries.entries place ≡ Some e) × (e.key ≡ key))) }
    {
        let entry = self.current_entry()?;
        if entry.key != key {
            return None;
        }
        self.current
    }

    // Gives a key its rank: one that is there already, or one for which there is room.
    pub fn put(&mut self, key: u32, rank: Rank)
        requires ranked { IsRanked self.old }
        requires room { rank_at self.old.entries.entries key ≡ None → HasRoom self.old }
        ensures ranked { IsRanked self.new }
        ensures at { (other : ℕ) → rank_at self.new.entries.entries other ≡ (if key == other then Some rank else rank_at self.old.entries.entries other) }
    {
        if let Some(place) = self.current_of(key) {
            change(&mut self.entries, place, key, rank);
            return;
        }
        self.settle();
        match self.entries.insert_full(key, rank) {
            Ok((place, _)) => {
                self.tree.set(place, None);
                self.current = Some(place);
            }
            Err(_) => unreachable!(),
        }
    }

    // Forgets a key.
    pub fn remove(&mut self, key: u32)
        requires ranked { IsRanked self.old }
        ensures ranked { IsRanked self.new }
        ensures at { (other : ℕ) → rank_at self.new.entries.entries other ≡ (if key == other then None else rank_at self.old.entries.entries other) }
    {
        self.settle();
        let Some((place, _, _)) = self.entries.swap_remove_full(&key) else {
            return;
        };
        let last = self.entries.len();
        self.tree.close(place, last);
    }

    // Forgets all keys.
    pub fn clear(&mut self)
        ensures ranked { IsRanked self.new }
        ensures empty { self.new.entries.entries ≡ [] }
    {
        self.entries.clear();
        self.tree = Tree::empty(self.alloc);
        self.current = None;
    }

    // The key of the least rank, with that.
    #[tactic(auto, using(crate::proofs::Placed::least_leads))]
    pub fn least(&self) -> Option<Entry>
        requires ranked { IsRanked self.now }
        ensures there { IfSome result (λ e. rank_at self.now.entries.entries e.key ≡ Some e.rank) }
        ensures least { (key : ℕ) (rank : Rank) → rank_at self.now.entries.entries key ≡ Some rank → Leads result (Some (entry_of (key, rank))) }
    {
        lesser(self.current_entry(), self.tree.least())
    }
}
