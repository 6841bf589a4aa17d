//! The files that have a descriptor, in the order of their last use.
ghost use Rattle.std.specs.Prelude.{◌≡◌, ◌-◌, ◌∷◌, [], length, take, false, IfOk, OnOk, OnErr};
ghost use Rattle.std.specs.NonZero.{non_zero_usize_get};
ghost use Rattle.file_table.specs.Descriptors.{is_among, without, in_front, least_recent};

use lru::LruCache;
use std::alloc::{AllocError, Global};
use std::marker::Model;
use std::num::NonZeroUsize;

/// A bounded number of descriptors, and the files that have one: PostgreSQL's ring of virtual file
/// descriptors.
///
/// Contracts see how many descriptors there are, and the files that have one, the most recently used first.
#[derive(Drop)]
pub struct Descriptors {
    files: LruCache<u32, ()>,
}

impl Model for Descriptors {
    ghost use Rattle.std.specs.Map.{keys_of};
    ghost use Rattle.file_table.specs.Descriptors.{Used};

    ghost Value = { Used };

    ghost view = { λ d. record { limit = d.files.cap; recent = keys_of d.files.entries } };
}

impl Descriptors {
    /// As many descriptors, of which no file has one.
    pub fn new(alloc: Global, limit: NonZeroUsize) -> Result<Descriptors, AllocError>
        ensures { IfOk result (λ made. made ≡ record { limit = non_zero_usize_get limit; recent = [] }) }
    {
        Ok(Descriptors {
            files: LruCache::new(alloc, limit)?,
        })
    }

    /// Makes a file that has a descriptor the most recently used one, and says whether it has one.
    pub fn touch(&mut self, file: u32) -> bool
        ensures had { result ≡ is_among file self.old.recent }
        ensures after { self.new ≡ record self.old { recent = in_front file self.old.recent } }
    {
        self.files.promote(&file)
    }

    /// Gives a descriptor to a file that has none. Where all are used, the file that was used least recently
    /// loses its one, and is the answer.
    pub fn give(&mut self, file: u32) -> Result<Option<u32>, AllocError>
        requires { is_among file self.old.recent ≡ false }
        ensures closed { IfOk result (λ closed. closed ≡ least_recent self.old) }
        ensures given { OnOk result (self.new ≡ record self.old { recent = file ∷ take (self.old.limit - 1) self.old.recent }) }
        ensures err { OnErr result (self.new ≡ self.old) }
    {
        match self.files.push(file, ())? {
            Some((closed, ())) => Ok(Some(closed)),
            None => Ok(None),
        }
    }

    /// Takes a file's descriptor back, and says whether it had one.
    pub fn take_back(&mut self, file: u32) -> bool
        ensures had { result ≡ is_among file self.old.recent }
        ensures after { self.new ≡ record self.old { recent = without file self.old.recent } }
    {
        self.files.pop(&file).is_some()
    }

    /// How many files have a descriptor.
    pub fn len(&self) -> usize
        ensures { result ≡ length self.now.recent }
    {
        self.files.len()
    }
}
