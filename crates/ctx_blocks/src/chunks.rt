//! Which chunks are live, and what they are.
ghost use Rattle.std.specs.Prelude.{◌≡◌, ℕ, ◌+◌, ◌==◌, List, Some, None, if◌then◌else◌, is_some, sum_by};
ghost use Rattle.std.specs.Map.{lookup};
ghost use Rattle.addr_space.specs.declared.Addr.{Addr};
ghost use Rattle.addr_space.specs.Live.{same_addr};
ghost use Rattle.ctx_blocks.specs.declared.parts.Chunk.{Chunk};
ghost use Rattle.ctx_blocks.specs.Layout.{is_in};
ghost use Rattle.ctx_blocks.specs.Steps.{with_chunk, with_size, without_chunk, AreUnique};

use crate::parts::Chunk;
use addr_space::Addr;
use block_mem::told::{Tells, Told};

/// The live chunks by their addresses, which clauses alone tell.
pub type Chunks = Told<(Addr, Chunk)>;

// A chunk that is put at an address.
#[derive(Drop)]
struct Noted<'a> {
    chunks: &'a Chunks,
    at: Addr,
    chunk: Chunk,
}

// Another size of the chunk at an address.
#[derive(Drop)]
struct Resized<'a> {
    chunks: &'a Chunks,
    at: Addr,
    size: u32,
}

// An address whose chunk goes.
#[derive(Drop)]
struct Struck<'a> {
    chunks: &'a Chunks,
    at: Addr,
}

struct Rule;

impl<'a> Tells<Noted<'a>, (Addr, Chunk)> for Rule {
    ghost told = { λ p. with_chunk p.chunks.now.entries p.at p.chunk };
}

impl<'a> Tells<Resized<'a>, (Addr, Chunk)> for Rule {
    ghost told = { λ s. with_size s.chunks.now.entries s.at s.size };
}

impl<'a> Tells<Struck<'a>, (Addr, Chunk)> for Rule {
    ghost told = { λ r. without_chunk r.chunks.now.entries r.at };
}

/// A chunk is live at an address.
#[inline]
#[tactic(auto, using(crate::proofs::LiveChunks::listed))]
pub fn put(chunks: &mut Chunks, at: Addr, chunk: Chunk)
    ensures at { (other : Addr) → lookup (same_addr other) chunks.new.entries ≡ (if same_addr at other then Some chunk else lookup (same_addr other) chunks.old.entries) }
    ensures count { (number : ℕ) → sum_by (is_in number) chunks.new.entries + (if is_some (lookup (same_addr at) chunks.old.entries) then (if at.region == number then 1 else 0) else 0) ≡ sum_by (is_in number) chunks.old.entries + (if at.region == number then 1 else 0) }
    ensures unique { AreUnique chunks.old.entries → AreUnique chunks.new.entries }
{
    let now = Chunks::of::<Noted, Rule>(&Noted { chunks, at, chunk });
    *chunks = now;
}

/// The live chunk at an address has another size.
#[inline]
#[tactic(auto, using(crate::proofs::LiveChunks::listed))]
pub fn set_size(chunks: &mut Chunks, at: Addr, size: u32)
    ensures at { (c : Chunk) → lookup (same_addr at) chunks.old.entries ≡ Some c → (other : Addr) → lookup (same_addr other) chunks.new.entries ≡ (if same_addr at other then Some (record c { size = size }) else lookup (same_addr other) chunks.old.entries) }
    ensures count { (c : Chunk) → lookup (same_addr at) chunks.old.entries ≡ Some c → (number : ℕ) → sum_by (is_in number) chunks.new.entries ≡ sum_by (is_in number) chunks.old.entries }
    ensures unique { AreUnique chunks.old.entries → AreUnique chunks.new.entries }
{
    let now = Chunks::of::<Resized, Rule>(&Resized { chunks, at, size });
    *chunks = now;
}

/// No chunk is live at an address any more.
#[inline]
#[tactic(auto, using(crate::proofs::LiveChunks::listed))]
pub fn remove(chunks: &mut Chunks, at: Addr)
    requires { AreUnique chunks.old.entries }
    ensures at { (other : Addr) → lookup (same_addr other) chunks.new.entries ≡ (if same_addr at other then None else lookup (same_addr other) chunks.old.entries) }
    ensures count { (c : Chunk) → lookup (same_addr at) chunks.old.entries ≡ Some c → (number : ℕ) → sum_by (is_in number) chunks.new.entries + (if at.region == number then 1 else 0) ≡ sum_by (is_in number) chunks.old.entries }
    ensures unique { AreUnique chunks.new.entries }
{
    let now = Chunks::of::<Struck, Rule>(&Struck { chunks, at });
    *chunks = now;
}
