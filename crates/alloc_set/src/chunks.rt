//! Which chunks stand where.
ghost use Rattle.std.specs.Prelude.{◌≡◌, ℕ, ◌+◌, List, Some, None, sum_by, unwrap_or, option_map, if◌then◌else◌};
ghost use Rattle.std.specs.Map.{values_of, lookup};
ghost use Rattle.addr_space.specs.declared.Addr.{Addr};
ghost use Rattle.addr_space.specs.Live.{same_addr};
ghost use Rattle.alloc_set.specs.declared.chunk.Chunk.{Chunk};
ghost use Rattle.alloc_set.specs.Listed.{with_chunk, without_chunk, IsUnique};

use crate::chunk::Chunk;
use addr_space::Addr;
use block_mem::told::{Tells, Told};

/// What stands at each address where a chunk was cut. The code reads headers and links in the space.
pub type Chunks = Told<(Addr, Chunk)>;

// A chunk that is put at an address.
#[derive(Drop)]
struct Noted<'a> {
    chunks: &'a Chunks,
    at: Addr,
    chunk: Chunk,
}

// An address whose chunk is taken off.
#[derive(Drop)]
struct Struck<'a> {
    chunks: &'a Chunks,
    at: Addr,
}

struct Rule;

impl<'a> Tells<Noted<'a>, (Addr, Chunk)> for Rule {
    ghost told = { λ p. with_chunk p.chunks.now.entries p.at p.chunk };
}

impl<'a> Tells<Struck<'a>, (Addr, Chunk)> for Rule {
    ghost told = { λ g. without_chunk g.chunks.now.entries g.at };
}

/// Notes what stands at an address.
#[inline]
#[tactic(auto, using(crate::proofs::Listed::listed))]
pub fn put(chunks: &mut Chunks, at: Addr, chunk: Chunk)
    requires { IsUnique chunks.old.entries }
    ensures at { (other : Addr) → lookup (same_addr other) chunks.new.entries ≡ (if same_addr at other then Some chunk else lookup (same_addr other) chunks.old.entries) }
    ensures sums { (f : Chunk → ℕ) → sum_by f (values_of chunks.new.entries) + unwrap_or (option_map f (lookup (same_addr at) chunks.old.entries)) 0 ≡ sum_by f (values_of chunks.old.entries) + f chunk }
    ensures unique { IsUnique chunks.new.entries }
{
    let now = Chunks::of::<Noted, Rule>(&Noted { chunks, at, chunk });
    *chunks = now;
}

/// Takes off what stands at an address.
#[inline]
#[tactic(auto, using(crate::proofs::Listed::listed))]
pub fn forget(chunks: &mut Chunks, at: Addr)
    requires { IsUnique chunks.old.entries }
    ensures at { (other : Addr) → lookup (same_addr other) chunks.new.entries ≡ (if same_addr at other then None else lookup (same_addr other) chunks.old.entries) }
    ensures sums { (f : Chunk → ℕ) → sum_by f (values_of chunks.new.entries) + unwrap_or (option_map f (lookup (same_addr at) chunks.old.entries)) 0 ≡ sum_by f (values_of chunks.old.entries) }
    ensures unique { IsUnique chunks.new.entries }
{
    let now = Chunks::of::<Struck, Rule>(&Struck { chunks, at });
    *chunks = now;
}
