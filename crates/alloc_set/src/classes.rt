//! The classes of chunks.
ghost use Rattle.std.specs.Prelude.{◌≡◌, ℕ, ◌+◌, ◌%◌, ◌<◌, ◌≤◌};
ghost use Rattle.alloc_set.specs.Ledger.{class_size, class_of, chunk_limit};
ghost use Rattle.chunk_header.specs.declared.TheConstants.{LEAST_BLOCK};

use chunk_header::{BLOCK_HEADER, CHUNK_HEADER, LAST_CLASS};

/// The size of the chunks of the last class: PostgreSQL's `ALLOC_CHUNK_LIMIT` (aset.c).
pub const LAST_SIZE: u32 = 8 << LAST_CLASS;

/// The size of the chunks of a class.
#[inline]
#[tactic(auto, using(crate::proofs::ClassSizes::class_sizes))]
pub fn class_size(class: u8) -> u32
    requires { class ≤ LAST_CLASS }
    ensures value { result ≡ class_size class }
    ensures least { 8 ≤ result }
    ensures most { result ≤ LAST_SIZE }
    ensures whole { result % 8 ≡ 0 }
{
    8 << class
}

/// The class that serves a request.
#[inline]
pub fn class_of(size: u32) -> u8
    requires { size ≤ LAST_SIZE }
    ensures value { result ≡ class_of size }
    ensures last { result ≤ LAST_CLASS }
    ensures holds { size ≤ class_size result }
{
    if size <= 8 {
        return 0;
    }
    // Class 1 has sizes from 9 on: 28 zeros stand before 8.
    (29 - (size - 1).leading_zeros()) as u8
}

/// The greatest request that a class serves, in a context whose greatest block has `max` bytes.
pub fn chunk_limit(max: u32) -> u32
    requires { LEAST_BLOCK ≤ max }
    ensures value { result ≡ chunk_limit max }
    ensures most { result ≤ LAST_SIZE }
{
    let most = (max - BLOCK_HEADER) / 4;
    let mut class = LAST_CLASS;
    while class > 0 && class_size(class) + CHUNK_HEADER > most {
        class -= 1;
    }
    class_size(class)
}
