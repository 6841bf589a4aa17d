ghost use Rattle.std.specs.Prelude.{◌≡◌, ◌+◌, ◌-◌, ◌<◌, ◌≤◌, ◌==◌, ◌&&◌, ℕ, if◌then◌else◌, nat_lt, length, MatchOption, IfOk, All, IsSome};
ghost use Rattle.owner_items.specs.Index.{IsIndex, IsEnd, Passes, number_in, ends, start, place_after};

use pgs_step::KindId;
use std::alloc::{AllocError, Global};

/// The place of one kind and key in the index, or a place that no kind and key has.
#[derive(Clone, Copy)]
pub(crate) struct Slot {
    pub kind: KindId,
    pub key: u32,
    pub used: bool,
    /// The number of the newest live entry of this kind and key, if there is one.
    pub newest: Option<usize>,
}

const FREE: Slot = Slot {
    kind: KindId(0),
    key: 0,
    used: false,
    newest: None,
};

/// From each kind and key to the number of its newest live entry: a hash table with open addressing.
///
/// A slot whose last entry has gone stays in use, so a search meets no gap that a removal left.
#[derive(Drop)]
pub(crate) struct Index {
    pub slots: Vec<Slot>,
    pub used: usize,
}

impl Index {
    /// An index that has no room.
    pub fn new(alloc: Global) -> Index
        ensures index { IsIndex result.slots.items result.used }
        ensures numbers { (kind : KindId) (key : ℕ) → number_in kind key result.slots.items ≡ None }
        ensures used { result.used ≡ 0 }
    {
        Index {
            slots: Vec::new(alloc),
            used: 0,
        }
    }

    /// An index with so many slots, all of them free.
    pub fn with_slots(alloc: Global, slots: usize) -> Result<Index, AllocError>
        ensures index { IfOk result (λ index. IsIndex index.slots.items index.used) }
        ensures numbers { IfOk result (λ index. (kind : KindId) (key : ℕ) → number_in kind key index.slots.items ≡ None) }
        ensures used { IfOk result (λ index. index.used ≡ 0) }
        ensures slots { IfOk result (λ index. length index.slots.items ≡ slots) }
    {
        Ok(Index {
            slots: vec![in alloc; FREE; slots]?,
            used: 0,
        })
    }

    /// How many more kinds and keys may be put in.
    pub fn room(&self) -> usize
        ensures { result ≡ length self.now.slots.items - self.now.used }
    {
        self.slots.len().saturating_sub(self.used)
    }

    /// The number of the newest live entry of this kind and key.
    pub fn newest(&self, kind: KindId, key: u32) -> Option<usize>
        requires { IsIndex self.now.slots.items self.now.used }
        ensures { result ≡ number_in kind key self.now.slots.items }
    {
        let place = self.place_of(kind, key)?;
        let slot = &self.slots[place];
        if slot.used { slot.newest } else { None }
    }

    /// Makes this the number of the newest live entry of the kind and key.
    pub fn put(&mut self, kind: KindId, key: u32, newest: Option<usize>)
        requires index { IsIndex self.old.slots.items self.old.used }
        requires room { self.old.used < length self.old.slots.items }
        ensures index { IsIndex self.new.slots.items self.new.used }
        ensures numbers { (other : KindId) (q : ℕ) → number_in other q self.new.slots.items ≡ (if (kind.0 == other.0) && (key == q) then newest else number_in other q self.old.slots.items) }
        ensures room { length self.new.slots.items ≡ length self.old.slots.items }
        ensures used { self.new.used ≤ self.old.used + 1 }
        ensures known { IsSome (number_in kind key self.old.slots.items) → self.new.used ≡ self.old.used }
    {
        let Some(place) = self.place_of(kind, key) else {
            return;
        };
        if !self.slots[place].used {
            self.used += 1;
        }
        self.slots[place] = Slot {
            kind,
            key,
            used: true,
            newest,
        };
    }

    // The place where the search for this kind and key ends, if it does.
    fn place_of(&self, kind: KindId, key: u32) -> Option<usize>
        ensures { MatchOption result (Passes kind key self.now.slots.items (length self.now.slots.items)) (λ place. IsEnd kind key self.now.slots.items place) }
    {
        let slots = &self.slots;
        if slots.is_empty() {
            return None;
        }
        let from = start_of(slots.len(), kind, key);
        for steps in 0..slots.len() {
            let place = step(slots.len(), from, steps);
            if ends_search(&slots[place], kind, key) {
                return Some(place);
            }
        }
        None
    }
}

fn ends_search(slot: &Slot, kind: KindId, key: u32) -> bool
    ensures { result ≡ ends kind key slot.now }
{
    !slot.used || (slot.kind.0 == kind.0 && slot.key == key)
}

// Where the search for this kind and key begins.
fn start_of(slots: usize, kind: KindId, key: u32) -> usize
    requires { 0 < slots }
    ensures place { result ≡ start slots kind key }
    ensures within { result < slots }
{
    (kind.0 as usize * 40503 + key as usize * 2654435769 / 65536) % slots
}

// The place that is so many steps behind another.
fn step(slots: usize, from: usize, steps: usize) -> usize
    requires from { from < slots }
    requires steps { steps < slots }
    ensures place { result ≡ place_after slots from steps }
    ensures within { result < slots }
{
    if steps < slots - from {
        from + steps
    } else {
        steps - (slots - from)
    }
}
