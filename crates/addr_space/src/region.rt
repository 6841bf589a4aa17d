//! One region of a space.
ghost use Rattle.std.specs.Prelude.{◌≡◌, ◌+◌, ◌-◌, ◌<◌, ◌≤◌, length, map, Some, None, replicate, IfOk, OnOk, OnErr, slice_index_or, IsSome, ℕ};
ghost use Rattle.addr_space.specs.Space.{Region as Bytes, part};
ghost use Rattle.block_mem.specs.Block.{overwritten, resized};

use block_mem::RawBlock;
use std::alloc::{AllocError, Global};
use std::marker::Model;

/// The account that a region counts for, and its bytes.
#[derive(Drop)]
pub struct Region {
    account: u8,
    block: RawBlock,
}

impl Model for Region {
    ghost use Rattle.addr_space.specs.Space.{Region as Bytes};

    ghost Value = { Bytes };

    ghost view = { λ r. record { account = r.account; bytes = r.block } };
}

impl Region {
    /// A region of `n` bytes, none of which is known.
    pub fn unwritten(alloc: Global, account: u8, n: u32) -> Result<Region, AllocError>
        requires { 1 ≤ n }
        ensures account { IfOk result (λ r. r.account ≡ account) }
        ensures bytes { IfOk result (λ r. r.bytes ≡ replicate n None) }
    {
        let block = RawBlock::new(alloc, n)?;
        Ok(Region { account, block })
    }

    /// The region as a new one of an account: none of its bytes is known.
    pub fn renewed(self, account: u8) -> Region
        ensures account { result.account ≡ account }
        ensures bytes { result.bytes ≡ replicate (length self.bytes) None }
    {
        let Region { account: _, block } = self;
        Region {
            account,
            block: block.renewed(),
        }
    }

    /// The account that the region counts for.
    pub fn account(&self) -> u8
        ensures { result ≡ self.now.account }
    {
        self.account
    }

    /// How many bytes the region has.
    pub fn len(&self) -> usize
        ensures { result ≡ length self.now.bytes }
    {
        self.block.len() as usize
    }

    /// Writes bytes from a place on.
    pub fn write(&mut self, at: usize, bytes: &[u8])
        requires { at + length bytes.now ≤ length self.old.bytes }
        ensures { self.new ≡ record self.old { bytes = overwritten self.old.bytes at (map Some bytes.now) } }
    {
        prove!(at <= self.block.len() as usize);
        self.block.write(at as u32, bytes);
    }

    /// Reads known bytes from a place on.
    pub fn read(&self, at: usize, out: &mut [u8])
        requires inside { at + length out.old ≤ length self.now.bytes }
        requires known { (k : ℕ) → k < length out.old → IsSome (slice_index_or self.now.bytes (at + k) None) }
        ensures { map Some out.new ≡ part self.now.bytes at (length out.old) }
    {
        prove!(at <= self.block.len() as usize);
        self.block.read(at as u32, out);
    }

    /// Cuts the region off at `n` bytes, or makes it longer by unknown ones.
    pub fn resize(&mut self, n: u32) -> Result<(), AllocError>
        requires { 1 ≤ n }
        ensures ok { OnOk result (self.new ≡ record self.old { bytes = resized self.old.bytes n }) }
        ensures err { OnErr result (self.new ≡ self.old) }
    {
        self.block.resize(n)
    }
}
