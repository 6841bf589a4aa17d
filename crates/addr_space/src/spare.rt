//! Regions that were given back, whose memory serves again.
ghost use Rattle.std.specs.Prelude.{◌≡◌, ◌+◌, ◌*◌, ◌<◌, ◌≤◌, length, min, None, Some, IfOk, IfSome, IfNone, vec_len};
ghost use Rattle.addr_space.specs.declared.spare.TheConstants.{MOST_SPARE, LARGE, SMALL};
ghost use Rattle.addr_space.specs.Spared.{Spared, spared_bytes, with_spare, without_spare, spares_of, IsShelf};

use crate::region::Region;
use std::alloc::{AllocError, Global};
use std::marker::Model;

/// How many regions of one length that were given back are kept for the next ones, as PostgreSQL's aset.c keeps
/// `MAX_FREE_CONTEXTS`: more than a session has levels, so that a deep stack of savepoints finds its memory again.
pub const MOST_SPARE: usize = 1024;

/// The bytes of a region that is kept so: the first block of most contexts.
pub const LARGE: usize = 8192;

/// Those of the first block of a small context, likewise.
pub const SMALL: usize = 1024;

/// Regions that were given back. Contracts see how many there are of each of the two lengths.
#[derive(Drop)]
pub struct Spare {
    large: Vec<Region>,
    small: Vec<Region>,
}

impl Model for Spare {
    ghost use Rattle.std.specs.Prelude.{vec_len};
    ghost use Rattle.addr_space.specs.Spared.{Spared, IsShelf};
    ghost use Rattle.addr_space.specs.declared.spare.TheConstants.{LARGE, SMALL};

    ghost Value = { Spared };

    ghost view = { λ s. record { large = vec_len s.large; small = vec_len s.small } };

    ghost invariant = { λ s. IsShelf LARGE s.large × IsShelf SMALL s.small };
}

impl Spare {
    /// None, with room for as many as are kept at most.
    pub fn new(alloc: Global) -> Result<Spare, AllocError>
        ensures { IfOk result (λ s. s ≡ record { large = 0; small = 0 }) }
    {
        Ok(Spare {
            large: Vec::with_capacity(alloc, MOST_SPARE)?,
            small: Vec::with_capacity(alloc, MOST_SPARE)?,
        })
    }

    /// The bytes of their memory: 9,437,184 at most.
    pub fn bytes(&self) -> usize
        ensures bytes { result ≡ spared_bytes self.now }
        ensures most { result ≤ MOST_SPARE * (LARGE + SMALL) }
    {
        self.large.len() * LARGE + self.small.len() * SMALL
    }

    /// One of `n` bytes, if there is any.
    pub fn pop(&mut self, n: usize) -> Option<Region>
        ensures spares { self.new ≡ without_spare n self.old }
        ensures bytes { IfSome result (λ r. length r.bytes ≡ n) }
        ensures some { IfSome result (λ _. 1 ≤ spares_of n self.old) }
        ensures none { IfNone result (spares_of n self.old ≡ 0) }
    {
        match n {
            LARGE => self.large.pop(),
            SMALL => self.small.pop(),
            _ => None,
        }
    }

    /// Keeps a region, where it has one of the two lengths and there is room.
    pub fn keep(&mut self, region: Region)
        ensures { self.new ≡ with_spare (length region.bytes) self.old }
    {
        match region.len() {
            LARGE => keep_in(&mut self.large, region),
            SMALL => keep_in(&mut self.small, region),
            _ => {}
        }
    }
}

// Keeps one more region of the length of the others, where there is room.
fn keep_in(regions: &mut Vec<Region>, region: Region)
    requires { IsShelf (length region.bytes) regions.old }
    ensures shelf { IsShelf (length region.bytes) regions.new }
    ensures len { vec_len regions.new ≡ min (vec_len regions.old + 1) MOST_SPARE }
{
    if regions.len() < MOST_SPARE {
        regions.push_reserved(region);
    }
}
