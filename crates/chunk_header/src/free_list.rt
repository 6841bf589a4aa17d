//! The boxes that contexts have left for the next ones.
ghost use Rattle.std.specs.Prelude.{◌≡◌, ◌⊎◌, ◌≤◌, ◌++◌, [], ◌∷◌, length, option_to_list, IsSome, IsNone, ◌↔◌};

use std::alloc::Global;
use std::marker::Model;

/// How many boxes are kept: as many as a session has levels, and some more.
pub const MOST_KEPT: usize = 1024;

/// The boxes that were left for the next ones, as PostgreSQL's aset.c keeps contexts in `context_freelists`.
///
/// Contracts see the list of the boxes, the one that was kept last at its end. What stands in a box is of no use.
#[derive(Drop)]
pub struct FreeList<T> {
    kept: Vec<Box<T>>,
}

impl<T> Model for FreeList<T> {
    ghost use Rattle.std.specs.Prelude.{List, Box};
    ghost use Rattle.std.specs.Global.{Global};

    ghost Value = { List (Box T Global) };

    ghost view = { λ f. f.kept.items };
}

impl<T> FreeList<T> {
    /// One in which nothing is kept. It takes no memory.
    pub fn new(alloc: Global) -> FreeList<T>
        ensures { result ≡ [] }
    {
        FreeList {
            kept: Vec::new(alloc),
        }
    }

    /// The box that was kept last, if there is one.
    #[inline]
    pub fn next(&mut self) -> Option<Box<T>>
        ensures boxes { self.old ≡ self.new ++ option_to_list result }
        ensures none { IsNone result ↔ (self.old ≡ []) }
    {
        self.kept.pop()
    }
}

impl<T: Drop> FreeList<T> {
    /// Keeps a box, where fewer than `MOST_KEPT` are kept and there is memory for one more.
    #[inline]
    pub fn keep(&mut self, left: Box<T>)
        ensures boxes { (self.new ≡ self.old ++ (left ∷ [])) ⊎ (self.new ≡ self.old) }
        ensures full { MOST_KEPT ≤ length self.old → self.new ≡ self.old }
    {
        if self.kept.len() < MOST_KEPT {
            let _ = self.kept.push(left);
        }
    }
}
