//! A tree of entries over places: each node has the lesser of the two below it, and the first one the least of all.
ghost use Rattle.std.specs.Prelude.{◌≡◌, ◌≢◌, ℕ, ◌+◌, ◌*◌, ◌<◌, ◌≤◌, ◌==◌, Some, None, IfSome, IfOk, IsTrue, true, false, if◌then◌else◌};
ghost use Rattle.slab_ctx.specs.Tree.{IsAtMost, IsLesser, Leads};

use std::alloc::{AllocError, Global};

/// What keys are ordered by: the major number first, then the minor one.
#[derive(Clone, Copy)]
pub struct Rank {
    pub major: u32,
    pub minor: u64,
}

/// A key with its rank.
#[derive(Clone, Copy)]
pub struct Entry {
    pub key: u32,
    pub rank: Rank,
}

/// The entries by their places.
#[derive(Drop)]
pub struct Tree {
    // How many places there are.
    pub places: usize,
    // The first node stands at 1, those below a node at twice its index and one more, and the places behind all nodes.
    pub nodes: Vec<Option<Entry>>,
}

// Whether a rank is less than another one.
fn is_less(a: Rank, b: Rank) -> bool
    ensures less { result ≡ true → IsAtMost a b }
    ensures not_less { result ≡ false → IsAtMost b a }
{
    if a.major == b.major {
        return a.minor < b.minor;
    }
    a.major < b.major
}

// Whether two are one entry, or none both.
fn is_same(a: Option<Entry>, b: Option<Entry>) -> bool
    ensures { IsTrue result → a ≡ b }
{
    match (a, b) {
        (Some(x), Some(y)) => x.key == y.key
            && x.rank.major == y.rank.major
            && x.rank.minor == y.rank.minor,
        (None, None) => true,
        _ => false,
    }
}

// The lesser of two entries, where there are some.
pub fn lesser(a: Option<Entry>, b: Option<Entry>) -> Option<Entry>
    ensures { IsLesser a b result }
{
    let Some(x) = a else {
        return b;
    };
    let Some(y) = b else {
        return a;
    };
    if is_less(y.rank, x.rank) {
        return b;
    }
    a
}

impl Tree {
    ghost use Rattle.slab_ctx.specs.Tree.{IsTree, IsTreeBut, node, leaf};

    // A tree of so many places, all of them empty.
    pub fn new(alloc: Global, places: usize) -> Result<Tree, AllocError>
        ensures tree { IfOk result IsTree }
        ensures places { IfOk result (λ t. t.places ≡ places) }
        ensures leaves { IfOk result (λ t. (p : ℕ) → leaf t p ≡ None) }
    {
        let Some(twice) = places.checked_mul(2) else {
            return Err(AllocError);
        };
        let nodes = vec![in alloc; None; twice]?;
        Ok(Tree { places, nodes })
    }

    // A tree without places.
    pub fn empty(alloc: Global) -> Tree
        ensures tree { IsTree result }
        ensures places { result.places ≡ 0 }
    {
        Tree {
            places: 0,
            nodes: Vec::new(alloc),
        }
    }

    // Makes the nodes above one right, up to the first one that stays what it was.
    fn raise(&mut self, start: usize)
        requires tree { IsTreeBut self.old start }
        requires within { start < 2 * self.old.places }
        ensures tree { IsTree self.new }
        ensures places { self.new.places ≡ self.old.places }
        ensures leaves { (k : ℕ) → self.old.places ≤ k → node self.new k ≡ node self.old k }
    {
        let mut index = start;
        while index > 1 {
            index /= 2;
            let best = lesser(self.nodes[2 * index], self.nodes[2 * index + 1]);
            if is_same(best, self.nodes[index]) {
                return;
            }
            self.nodes[index] = best;
        }
    }

    // What stands at a place.
    pub fn leaf(&self, place: usize) -> Option<Entry>
        requires tree { IsTree self.now }
        requires within { place < self.now.places }
        ensures { result ≡ leaf self.now place }
    {
        self.nodes[self.places + place]
    }

    // Puts an entry or none at a place.
    pub fn set(&mut self, place: usize, entry: Option<Entry>)
        requires tree { IsTree self.old }
        requires within { place < self.old.places }
        ensures tree { IsTree self.new }
        ensures places { self.new.places ≡ self.old.places }
        ensures leaves { (p : ℕ) → leaf self.new p ≡ (if place == p then entry else leaf self.old p) }
    {
        let index = self.places + place;
        self.nodes[index] = entry;
        self.raise(index);
    }

    // Empties the last place that has an entry, and puts that at a place which was emptied before.
    pub fn close(&mut self, place: usize, last: usize)
        requires tree { IsTree self.old }
        requires within { place ≤ last }
        requires last { last < self.old.places }
        ensures tree { IsTree self.new }
        ensures places { self.new.places ≡ self.old.places }
        ensures leaves { (p : ℕ) → leaf self.new p ≡ (if last == p then None else (if place == p then leaf self.old last else leaf self.old p)) }
    {
        let moved = self.leaf(last);
        self.set(place, moved);
        self.set(last, None);
    }

    // The least entry.
    #[tactic(auto, using(crate::proofs::Trees::first_leads))]
    pub fn least(&self) -> Option<Entry>
        requires tree { IsTree self.now }
        ensures least { (p : ℕ) → p < self.now.places → Leads result (leaf self.now p) }
        ensures there { IfSome result (λ e. (p : ℕ) × (p < self.now.places) × (leaf self.now p ≡ Some e)) }
    {
        if self.places == 0 {
            return None;
        }
        self.nodes[1]
    }
}
