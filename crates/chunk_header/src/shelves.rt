//! The free chunks of an AllocSet, by their class.
ghost use Rattle.std.specs.Prelude.{◌≡◌, ◌≤◌, replicate, slice_index_or, slice_set};
ghost use Rattle.chunk_header.specs.Shelves.{no_shelf};

use crate::{CLASSES, LAST_CLASS};
use addr_space::Addr;
use std::marker::Model;

/// The free chunks of a class: the first one, which names the next, and how many there are.
#[derive(Clone, Copy)]
pub struct Shelf {
    pub first: Option<Addr>,
    pub count: u64,
}

// The shelf of a class without free chunks.
const EMPTY: Shelf = Shelf {
    first: None,
    count: 0,
};

/// The free chunks of an AllocSet by class: PostgreSQL's `freelist`.
///
/// Contracts see the list of the shelves, one of each class.
#[derive(Drop)]
pub struct Shelves {
    each: [Shelf; CLASSES],
    // Whether a shelf was set since all of them were empty.
    used: bool,
}

impl Model for Shelves {
    ghost use Rattle.std.specs.Prelude.{◌≡◌, List, false, replicate};
    ghost use Rattle.chunk_header.specs.declared.shelves.Shelf.{Shelf};
    ghost use Rattle.chunk_header.specs.declared.TheConstants.{CLASSES};
    ghost use Rattle.chunk_header.specs.Shelves.{no_shelf};

    ghost Value = { List Shelf };

    ghost view = { λ s. s.each };

    ghost invariant = { λ s. s.used ≡ false → s.each ≡ replicate CLASSES no_shelf };
}

impl Shelves {
    /// Shelves without chunks.
    #[inline]
    pub fn none() -> Shelves
        ensures { result ≡ replicate CLASSES no_shelf }
    {
        Shelves {
            each: [EMPTY; CLASSES],
            used: false,
        }
    }

    /// The shelf of a class.
    #[inline]
    pub fn at(&self, class: u8) -> Shelf
        requires { class ≤ LAST_CLASS }
        ensures { result ≡ slice_index_or self.now class no_shelf }
    {
        self.each[class as usize]
    }

    /// Puts a shelf in the place of that of a class.
    #[inline]
    pub fn set(&mut self, class: u8, shelf: Shelf)
        requires { class ≤ LAST_CLASS }
        ensures { self.new ≡ slice_set self.old class shelf }
    {
        self.each[class as usize] = shelf;
        self.used = true;
    }

    /// Takes all chunks off all shelves. Where none was set since they were empty, nothing is written.
    #[inline]
    pub fn clear(&mut self)
        ensures { self.new ≡ replicate CLASSES no_shelf }
    {
        if self.used {
            self.each = [EMPTY; CLASSES];
            self.used = false;
        }
    }
}
