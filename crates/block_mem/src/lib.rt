//! Blocks of memory that isn't filled first.
//!
//! A block stands for what one call of malloc gives to PostgreSQL's aset.c, generation.c, slab.c and bump.c: its bytes
//! are unknown until they are written, and it is given back when it is dropped. A block has 1 to 2^32 - 1 bytes, and
//! places in it count from 0.
//!
//! What is known of the bytes stands in the clauses alone and takes no memory. The memory is reached as far as bytes were
//! written: a write behind what was reached clears what lies between, so each byte is cleared at most once. No call but
//! `new` and `resize` takes memory.
#![tactic(auto)]

ghost use Rattle.std.specs.Prelude.{◌≡◌, ◌+◌, ◌<◌, ◌≤◌, ◌^◌, length, map, Some, None, replicate, take, IfOk, OnOk, OnErr, vec_capacity};
ghost use Rattle.block_mem.specs.Block.{part, overwritten, resized, IsKnown};

mod known;
pub mod told;

use known::Known;
use std::alloc::{AllocError, Global};
use std::marker::Model;

// How many more bytes are reached at a time.
const STEP: usize = 256;

// Reaches the first `end` bytes of the room.
fn reach(cells: &mut Vec<u8>, end: usize)
    requires { end ≤ vec_capacity cells.old }
    ensures reached { end ≤ length cells.new.items }
    ensures kept { take (length cells.old.items) cells.new.items ≡ cells.old.items }
    ensures room { vec_capacity cells.old ≤ vec_capacity cells.new }
{
    if cells.len() < end {
        let more = end.saturating_add(STEP).min(cells.capacity());
        let _within = cells.resize(more, 0);
    }
}

// Puts bytes over others.
fn store(cells: &mut Vec<u8>, at: usize, bytes: &[u8])
    requires { at + length bytes.now ≤ length cells.old.items }
    ensures items { cells.new.items ≡ overwritten cells.old.items at bytes.now }
    ensures room { vec_capacity cells.new ≡ vec_capacity cells.old }
{
    cells[at..at + bytes.len()].copy_from_slice(bytes);
}

/// A block of bytes, each known once it was written.
///
/// A contract sees it as the list of its bytes, in which one that was never written is `None`.
#[derive(Drop)]
pub struct RawBlock {
    cells: Vec<u8>,
    len: u32,
    known: Known,
}

impl Model for RawBlock {
    ghost use Rattle.std.specs.Prelude.{◌≡◌, ◌≤◌, ℕ, List, Option, length, vec_capacity};
    ghost use Rattle.block_mem.specs.Cells.{Holds};

    ghost Value = { List (Option ℕ) };

    ghost view = { λ b. b.known.entries };

    ghost invariant = { λ b. (length b.known.entries ≡ b.len) × (b.len ≤ vec_capacity b.cells) × Holds b.cells.items b.known.entries };
}

impl RawBlock {
    /// A block of `len` bytes, of which none is known. Its memory is not touched.
    pub fn new(alloc: Global, len: u32) -> Result<RawBlock, AllocError>
        requires { 1 ≤ len }
        ensures { IfOk result (λ b. b ≡ replicate len None) }
    {
        let cells = Vec::with_capacity(alloc, len as usize)?;
        Ok(RawBlock {
            cells,
            len,
            known: Known::nothing(len),
        })
    }

    /// The same block, of which nothing is known any more, as if it were a new one.
    pub fn renewed(self) -> RawBlock
        ensures { result ≡ replicate (length self) None }
    {
        let RawBlock {
            cells,
            len,
            known: _,
        } = self;
        RawBlock {
            cells,
            len,
            known: Known::nothing(len),
        }
    }

    /// How many bytes the block has.
    pub fn len(&self) -> u32
        ensures { result ≡ length self.now }
    {
        self.len
    }

    /// Writes bytes from a place on.
    #[tactic(auto, using(crate::proofs::Bytes::byte_places))]
    pub fn write(&mut self, at: u32, bytes: &[u8])
        requires { at + length bytes.now ≤ length self.old }
        ensures bytes { self.new ≡ overwritten self.old at (map Some bytes.now) }
        ensures len { length self.new ≡ length self.old }
    {
        let at = at as usize;
        reach(&mut self.cells, at + bytes.len());
        store(&mut self.cells, at, bytes);
        self.known = self.known.written(at, bytes);
    }

    /// Reads known bytes from a place on.
    pub fn read(&self, at: u32, out: &mut [u8])
        requires inside { at + length out.old ≤ length self.now }
        requires known { IsKnown self.now at (length out.old) }
        ensures { map Some out.new ≡ part self.now at (length out.old) }
    {
        if out.len() == 0 {
            return;
        }
        let at = at as usize;
        out.copy_from_slice(&self.cells[at..at + out.len()]);
    }

    /// Copies `n` bytes from one place to another: as much is known of them there as here. The two may overlap.
    #[tactic(auto, using(crate::proofs::Bytes::byte_places))]
    pub fn copy_within(&mut self, from: u32, to: u32, n: u32)
        requires from { from + n ≤ length self.old }
        requires to { to + n ≤ length self.old }
        ensures bytes { self.new ≡ overwritten self.old to (part self.old from n) }
        ensures len { length self.new ≡ length self.old }
    {
        let from = from as usize;
        let to = to as usize;
        let n = n as usize;
        reach(&mut self.cells, from.max(to) + n);
        self.cells.copy_within(from..from + n, to);
        self.known = self.known.carried(from, to, n);
    }

    /// Makes the block `len` bytes long. It keeps what is known of the bytes that both lengths have, and nothing is
    /// known of the others. A refused call changes nothing.
    pub fn resize(&mut self, len: u32) -> Result<(), AllocError>
        requires { 1 ≤ len }
        ensures ok { OnOk result (self.new ≡ resized self.old len) }
        ensures err { OnErr result (self.new ≡ self.old) }
    {
        let n = len as usize;
        if n < self.len as usize {
            self.cells.truncate(n);
            self.cells.shrink_to(n);
        } else {
            self.cells
                .reserve_exact(n.saturating_sub(self.cells.len()))?;
        }
        self.known = self.known.resized(len);
        self.len = len;
        Ok(())
    }
}
