//! Which bytes of a block are known, and what they are.
ghost use Rattle.std.specs.Prelude.{◌≡◌, ℕ, ◌+◌, List, length, map, Option, Some, None, replicate};
ghost use Rattle.block_mem.specs.Block.{part, overwritten, resized};

use crate::told::{Tells, Told};

/// It says of each byte what it is, or `None`.
pub type Known = Told<Option<u8>>;

// Bytes that are written from a place on.
#[derive(Drop)]
struct Written<'a> {
    known: &'a Known,
    at: usize,
    bytes: &'a [u8],
}

// Bytes that come from one place to another.
#[derive(Drop)]
struct Carried<'a> {
    known: &'a Known,
    from: usize,
    to: usize,
    n: usize,
}

// Another length.
#[derive(Drop)]
struct Resized<'a> {
    known: &'a Known,
    len: u32,
}

struct Rule;

impl Tells<u32, Option<u8>> for Rule {
    ghost told = { λ len. replicate len None };
}

impl<'a> Tells<Written<'a>, Option<u8>> for Rule {
    ghost told = { λ w. overwritten w.known.now.entries w.at (map Some w.bytes.now) };
}

impl<'a> Tells<Carried<'a>, Option<u8>> for Rule {
    ghost told = { λ c. overwritten c.known.now.entries c.to (part c.known.now.entries c.from c.n) };
}

impl<'a> Tells<Resized<'a>, Option<u8>> for Rule {
    ghost told = { λ r. resized r.known.now.entries r.len };
}

impl Known {
    /// Nothing is known of `len` bytes.
    pub fn nothing(len: u32) -> Known
        ensures { result.entries ≡ replicate len None }
    {
        Known::of::<u32, Rule>(&len)
    }

    /// These bytes are known from a place on.
    pub fn written(&self, at: usize, bytes: &[u8]) -> Known
        ensures { result.entries ≡ overwritten self.now.entries at (map Some bytes.now) }
    {
        let known = self;
        Known::of::<Written, Rule>(&Written { known, at, bytes })
    }

    /// As much is known of `n` bytes at one place as was known of those at another.
    pub fn carried(&self, from: usize, to: usize, n: usize) -> Known
        ensures { result.entries ≡ overwritten self.now.entries to (part self.now.entries from n) }
    {
        let known = self;
        Known::of::<Carried, Rule>(&Carried { known, from, to, n })
    }

    /// The same of the bytes that both lengths have, and nothing of the others.
    pub fn resized(&self, len: u32) -> Known
        ensures { result.entries ≡ resized self.now.entries len }
    {
        let known = self;
        Known::of::<Resized, Rule>(&Resized { known, len })
    }
}
