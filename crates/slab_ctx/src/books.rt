//! The books of a Slab: its blocks, and how many free chunks and empty blocks there are.
ghost use Rattle.std.specs.Prelude.{◌≡◌, ◌≢◌, ℕ, ◌+◌, ◌-◌, ◌*◌, ◌^◌, ◌<◌, ◌≤◌, ◌↔◌, ◌⊎◌, ◌==◌, ◌&&◌, ◌++◌, Ok, Err, Some, None, IsSome, IfOk, IfErr, OnOk, OnErr, IfSome, IfNone, if◌then◌else◌, nat_le, length, [], ◌∷◌};
ghost use Rattle.addr_space.specs.declared.Addr.{Addr};
ghost use Rattle.addr_space.specs.Space.{Space, Asks, accounts, held};
ghost use Rattle.addr_space.specs.Footprint.{Agrees, Moves, Keeps, nothing};
ghost use Rattle.chunk_header.specs.Header.{AllHeaded, AllOfKind, TakesSpace};
ghost use Rattle.ctx_blocks.specs.declared.parts.Block.{Block};
ghost use Rattle.ctx_blocks.specs.Layout.{Layout, block_at, chunk_at, footprint as blocks_footprint};
ghost use Rattle.ctx_blocks.specs.Steps.{PutsChunk, SameContext};
ghost use Rattle.slab_ctx.specs.Ledger.{SlabBlock, stride, per_block, created, serving, is_empty, with_live, without_number, serve, take, give, resize, reset, stats};
ghost use Rattle.slab_ctx.specs.Order.{rank_from};
ghost use Rattle.slab_ctx.specs.State.{footprint, lives_of, blocks_of, serving_block};
ghost use Rattle.ctx_blocks.specs.Numbered.{number_of, AreAmong};
ghost use Rattle.chunk_header.specs.declared.Kind.TheVariants.{Slab};
ghost use Rattle.slab_ctx.specs.Slots.{chunk_of};
ghost use Rattle.chunk_header.specs.declared.TheConstants.{CONTEXT_BYTES, BLOCK_HEADER};
ghost use Rattle.slab_ctx.specs.declared.slots.TheConstants.{BLOCK_BYTES, LARGEST_CHUNK};

use crate::ranks::Ranks;
use crate::slots::{Slots, per_block, stride};
use crate::tree::Rank;
use addr_space::{Addr, Space};
use chunk_header::{CtxError, LARGEST, Stats};
use std::alloc::Global;

/// All that a Slab keeps.
#[derive(Drop)]
pub struct Books {
    pub slots: Slots,
    // How many blocks have no live chunk.
    pub empty: u64,
    // How many free chunks all blocks have.
    pub free: u64,
    // Each block by its free chunks and its number: the least one serves.
    pub ranks: Ranks,
}

// As many empty blocks as are kept.
const MOST_EMPTY: u64 = 10;

// The rank of a block by its number and its live chunks.
fn rank(per: u32, number: u64, live: u32) -> Rank
    requires { per ≤ 509 }
    ensures { result ≡ rank_from per number live }
{
    let major = if live < per { per - live } else { per + 1 };
    Rank {
        major,
        minor: number,
    }
}

// What a block with so many live chunks counts for among the empty ones.
fn one_if_empty(live: u32) -> u64
    ensures { result ≡ is_empty live }
{
    if live == 0 { 1 } else { 0 }
}

impl Books {
    ghost use Rattle.slab_ctx.specs.Kept.{ledger_of, state_of, IsKept, IsKeptBut};
    ghost use Rattle.slab_ctx.specs.Steps.{IsChosen, Serves};

    // Room for the books of a context that is to come. It is made before the first region is taken, which can't be given
    // back without a trace.
    pub fn unplaced(alloc: Global) -> Result<Box<Books>, CtxError>
        ensures { IfErr result (λ e. e ≡ CtxError.Memory) }
    {
        let books = Books {
            slots: Slots::unplaced(alloc)?,
            empty: 0,
            free: 0,
            ranks: Ranks::new(alloc),
        };
        match Box::new(alloc, books) {
            Ok(books) => Ok(books),
            Err(_) => Err(CtxError::Memory),
        }
    }

    // The books of a new context, whose first region was taken.
    #[tactic(auto, unfolding(crate::specs::Ledger::created))]
    pub fn create(
        alloc: Global,
        space: &mut Space,
        account: u8,
        context: u32,
        size: u32,
    ) -> Result<Books, CtxError>
        requires account { account < accounts space.old }
        requires least { 1 ≤ size }
        requires most { size ≤ LARGEST_CHUNK }
        ensures kept { IfOk result IsKept }
        ensures ledger { IfOk result (λ b. ledger_of b ≡ created size) }
        ensures account { IfOk result (λ b. (state_of b).layout.account ≡ account) }
        ensures context { IfOk result (λ b. (footprint (state_of b)).context ≡ context) }
        ensures chunks { IfOk result (λ b. b.slots.blocks.chunks ≡ []) }
        ensures asked { OnOk result (Asks account CONTEXT_BYTES space.old space.new) }
        ensures moves { IfOk result (λ b. Moves (nothing account context) (footprint (state_of b)) space.old space.new) }
        ensures no_space { (result ≡ Err CtxError.NoSpace) ↔ (space.old.limit < held space.old account + CONTEXT_BYTES) }
        ensures no_other { IfErr result (λ e. (e ≡ CtxError.NoSpace) ⊎ (e ≡ CtxError.Memory)) }
        ensures err { OnErr result (space.new ≡ space.old) }
    {
        let slots = Slots::create(alloc, space, account, context, size)?;
        Ok(Books {
            slots,
            empty: 0,
            free: 0,
            ranks: Ranks::new(alloc),
        })
    }

    // What the books say.
    pub fn stats(&self) -> Stats
        requires { IsKept self.now }
        ensures { result ≡ stats (ledger_of self.now) }
    {
        Stats {
            total: self.slots.blocks.total(),
            blocks: self.slots.blocks.len() as u64 - 1,
            free: u64::from(stride(self.slots.size)) * self.free,
            chunks: self.free,
        }
    }

    // Live chunks lead to the context.
    #[tactic(auto, using(crate::proofs::Full::AllHeaded_full))]
    pub fn headed(&self)
        requires { IsKept self.now }
        ensures headed { AllHeaded (footprint (state_of self.now)) }
        ensures kinds { AllOfKind Slab (footprint (state_of self.now)) }
        ensures spaces { (at : Addr) (size : ℕ) → (footprint (state_of self.now)).live at ≡ Some size → TakesSpace (footprint (state_of self.now)) at (stride self.now.slots.size) }
    {
        self.slots.blocks.headed();
    }

    // The block with the fewest free chunks but at least one, the earliest of such ones.
    #[tactic(auto, using(crate::proofs::Chosen::chosen, crate::proofs::Chosen::serving_chosen, crate::proofs::Chosen::serving_none, crate::proofs::Chosen::serving_empty))]
    fn fullest(&self) -> Option<u32>
        requires { IsKept self.now }
        ensures some { IfSome result (λ number. IsChosen self.now.slots.blocks (per_block self.now.slots.size) number) }
        ensures serving { serving (per_block self.now.slots.size) (blocks_of self.now.slots.blocks) ≡ serving_block self.now.slots.blocks result }
    {
        let Some(least) = self.ranks.least() else {
            return None;
        };
        if least.rank.major > per_block(self.slots.size) {
            return None;
        }
        Some(least.key)
    }

    // Takes a chunk of a block that has a free one.
    #[tactic(auto, using(crate::proofs::KeptSteps::has_rank))]
    fn take(&mut self, space: &mut Space, number: u32) -> Addr
        requires kept { IsKept self.old }
        requires agrees { Agrees (blocks_footprint self.old.slots.blocks) space.old }
        requires not_keeper { number ≢ self.old.slots.blocks.keeper }
        requires block { (b : Block) × (block_at self.old.slots.blocks number ≡ Some b) × (b.live < per_block self.old.slots.size) }
        ensures kept { IsKept self.new }
        ensures size { self.new.slots.size ≡ self.old.slots.size }
        ensures blocks { (b : Block) → block_at self.old.slots.blocks number ≡ Some b → blocks_of self.new.slots.blocks ≡ with_live (blocks_of self.old.slots.blocks) b.number (b.live + 1) }
        ensures number { number_of self.new.slots.blocks result.region ≡ number_of self.old.slots.blocks number }
        ensures among { AreAmong self.new.slots.blocks self.old.slots.blocks }
        ensures last { self.new.slots.blocks.last_number ≡ self.old.slots.blocks.last_number }
        ensures account { self.new.slots.blocks.account ≡ self.old.slots.blocks.account }
        ensures asked { space.new.taken ≡ space.old.taken }
        ensures fresh { chunk_at self.old.slots.blocks result ≡ None }
        ensures chunk { PutsChunk self.old.slots.blocks self.new.slots.blocks result (Some (chunk_of self.old.slots.size)) }
        ensures moves { Moves (blocks_footprint self.old.slots.blocks) (blocks_footprint self.new.slots.blocks) space.old space.new }
        ensures keeps { Keeps (blocks_footprint self.old.slots.blocks) (blocks_footprint self.new.slots.blocks) space.old space.new }
    {
        let block = self.slots.owned(number);
        let live = block.live + 1;
        self.ranks.put(number, rank(per_block(self.slots.size), block.number, live));
        self.empty -= one_if_empty(block.live);
        self.free -= 1;
        self.slots.take(space, number, block)
    }

    // Takes a block.
    #[tactic(auto, using(ctx_blocks::proofs::Among::among_adding, ctx_blocks::proofs::Changed::put_here))]
    fn add(&mut self, space: &mut Space) -> Result<u32, CtxError>
        requires kept { IsKept self.old }
        requires agrees { Agrees (blocks_footprint self.old.slots.blocks) space.old }
        ensures kept { IsKept self.new }
        ensures size { self.new.slots.size ≡ self.old.slots.size }
        ensures blocks { OnOk result (blocks_of self.new.slots.blocks ≡ blocks_of self.old.slots.blocks ++ record { number = self.old.slots.blocks.last_number + 1; live = 0 } ∷ []) }
        ensures last { OnOk result (self.new.slots.blocks.last_number ≡ self.old.slots.blocks.last_number + 1) }
        ensures among { OnOk result (AreAmong self.old.slots.blocks self.new.slots.blocks) }
        ensures asked { OnOk result (Asks self.old.slots.blocks.account BLOCK_BYTES space.old space.new) }
        ensures block { IfOk result (λ number. block_at self.new.slots.blocks number ≡ Some (record { number = self.old.slots.blocks.last_number + 1; size = BLOCK_BYTES; room = BLOCK_BYTES - BLOCK_HEADER; live = 0; freed = 0 })) }
        ensures not_keeper { IfOk result (λ number. number ≢ self.new.slots.blocks.keeper) }
        ensures chunks { OnOk result (self.new.slots.blocks.chunks ≡ self.old.slots.blocks.chunks) }
        ensures moves { OnOk result (Moves (blocks_footprint self.old.slots.blocks) (blocks_footprint self.new.slots.blocks) space.old space.new) }
        ensures keeps { OnOk result (Keeps (blocks_footprint self.old.slots.blocks) (blocks_footprint self.new.slots.blocks) space.old space.new) }
        ensures fits { OnOk result (BLOCK_BYTES ≤ space.old.limit - held space.old self.old.slots.blocks.account) }
        ensures no_space { (result ≡ Err CtxError.NoSpace) → space.old.limit - held space.old self.old.slots.blocks.account < BLOCK_BYTES }
        ensures no_other { IfErr result (λ e. (e ≡ CtxError.NoSpace) ⊎ (e ≡ CtxError.Memory)) }
        ensures err { OnErr result (self.new.slots.blocks ≡ self.old.slots.blocks) }
        ensures err_space { OnErr result (space.new ≡ space.old) }
    {
        if self.ranks.make_room().is_err() {
            return Err(CtxError::Memory);
        }
        let number = self.slots.add(space)?;
        let per = per_block(self.slots.size);
        let block = self.slots.owned(number);
        self.ranks.put(number, rank(per, block.number, block.live));
        self.empty += 1;
        self.free += u64::from(per);
        Ok(number)
    }

    // Serves a request for a chunk.
    #[tactic(auto, unfolding(crate::specs::Ledger::serve), using(crate::proofs::Full::Agrees_plain, crate::proofs::Numbers::per_block_some))]
    fn serve(&mut self, space: &mut Space) -> Result<Addr, CtxError>
        requires kept { IsKept self.old }
        requires agrees { Agrees (footprint (state_of self.old)) space.old }
        ensures ok { IfOk result (λ at. Serves (state_of self.old) self.new space.old space.new at (serve (ledger_of self.old) (space.old.limit - held space.old self.old.slots.blocks.account) (serving (per_block self.old.slots.size) (blocks_of self.old.slots.blocks)))) }
        ensures no_space { result ≡ Err CtxError.NoSpace → serve (ledger_of self.old) (space.old.limit - held space.old self.old.slots.blocks.account) (serving (per_block self.old.slots.size) (blocks_of self.old.slots.blocks)) ≡ Err CtxError.NoSpace }
        ensures no_other { IfErr result (λ e. (e ≡ CtxError.NoSpace) ⊎ (e ≡ CtxError.Memory)) }
        ensures err_state { OnErr result (state_of self.new ≡ state_of self.old) }
        ensures err_kept { OnErr result (IsKept self.new) }
        ensures err_space { OnErr result (space.new ≡ space.old) }
    {
        if let Some(number) = self.fullest() {
            return Ok(self.take(space, number));
        }
        let number = self.add(space)?;
        Ok(self.take(space, number))
    }

    // Serves a request.
    #[tactic(auto, unfolding(crate::specs::Ledger::take, crate::specs::Ledger::serve))]
    pub fn alloc(&mut self, space: &mut Space, size: u64) -> Result<Addr, CtxError>
        requires kept { IsKept self.old }
        requires agrees { Agrees (footprint (state_of self.old)) space.old }
        ensures ok { IfOk result (λ at. Serves (state_of self.old) self.new space.old space.new at (take (ledger_of self.old) (space.old.limit - held space.old self.old.slots.blocks.account) size)) }
        ensures size { OnOk result (size ≡ self.old.slots.size) }
        ensures too_big { (result ≡ Err CtxError.TooBig) ↔ (LARGEST < size) }
        ensures wrong_size { (result ≡ Err CtxError.WrongSize) ↔ (take (ledger_of self.old) (space.old.limit - held space.old self.old.slots.blocks.account) size ≡ Err CtxError.WrongSize) }
        ensures no_space { result ≡ Err CtxError.NoSpace → take (ledger_of self.old) (space.old.limit - held space.old self.old.slots.blocks.account) size ≡ Err CtxError.NoSpace }
        ensures no_other { IfErr result (λ e. (e ≡ CtxError.TooBig) ⊎ ((e ≡ CtxError.WrongSize) ⊎ ((e ≡ CtxError.NoSpace) ⊎ (e ≡ CtxError.Memory)))) }
        ensures err_state { OnErr result (state_of self.new ≡ state_of self.old) }
        ensures err_kept { OnErr result (IsKept self.new) }
        ensures err_space { OnErr result (space.new ≡ space.old) }
    {
        if size > LARGEST {
            return Err(CtxError::TooBig);
        }
        if size != u64::from(self.slots.size) {
            return Err(CtxError::WrongSize);
        }
        self.serve(space)
    }

    // Gives a block back, where it has no live chunk and enough others are empty.
    #[tactic(auto, using(ctx_blocks::proofs::Among::among_drop))]
    fn settle(&mut self, space: &mut Space, number: u32, live: u32)
        requires kept { (b : Block) × (block_at self.old.slots.blocks number ≡ Some b) × IsKeptBut self.old (is_empty b.live) }
        requires live { (b : Block) → block_at self.old.slots.blocks number ≡ Some b → b.live ≡ live }
        requires agrees { Agrees (blocks_footprint self.old.slots.blocks) space.old }
        requires not_keeper { number ≢ self.old.slots.blocks.keeper }
        ensures kept { IsKept self.new }
        ensures size { self.new.slots.size ≡ self.old.slots.size }
        ensures blocks { (b : Block) → block_at self.old.slots.blocks number ≡ Some b → blocks_of self.new.slots.blocks ≡ (if (b.live == 0) && nat_le MOST_EMPTY self.old.empty then without_number (blocks_of self.old.slots.blocks) b.number else blocks_of self.old.slots.blocks) }
        ensures last { self.new.slots.blocks.last_number ≡ self.old.slots.blocks.last_number }
        ensures among { AreAmong self.new.slots.blocks self.old.slots.blocks }
        ensures asked { space.new.taken ≡ space.old.taken }
        ensures chunks { self.new.slots.blocks.chunks ≡ self.old.slots.blocks.chunks }
        ensures moves { Moves (blocks_footprint self.old.slots.blocks) (blocks_footprint self.new.slots.blocks) space.old space.new }
        ensures keeps { Keeps (blocks_footprint self.old.slots.blocks) (blocks_footprint self.new.slots.blocks) space.old space.new }
    {
        if live > 0 {
            return;
        }
        if self.empty < MOST_EMPTY {
            self.empty += 1;
            return;
        }
        self.slots.give(space, number);
        self.ranks.remove(number);
        self.free -= u64::from(per_block(self.slots.size));
    }

    // Frees a live chunk.
    #[tactic(auto, using(crate::proofs::KeptSteps::has_rank))]
    pub fn free(&mut self, space: &mut Space, at: Addr)
        requires kept { IsKept self.old }
        requires agrees { Agrees (footprint (state_of self.old)) space.old }
        requires live { IsSome ((footprint (state_of self.old)).live at) }
        ensures kept { IsKept self.new }
        ensures ledger { ledger_of self.new ≡ give (ledger_of self.old) (number_of self.old.slots.blocks at.region) }
        ensures chunk { PutsChunk self.old.slots.blocks self.new.slots.blocks at None }
        ensures among { AreAmong self.new.slots.blocks self.old.slots.blocks }
        ensures asked { space.new.taken ≡ space.old.taken }
        ensures moves { Moves (footprint (state_of self.old)) (footprint (state_of self.new)) space.old space.new }
        ensures keeps { Keeps (footprint (state_of self.old)) (footprint (state_of self.new)) space.old space.new }
    {
        let was = self.slots.remove(at);
        let live = was.live - 1;
        let per = per_block(self.slots.size);
        self.ranks.put(at.region, rank(per, was.number, live));
        self.free += 1;
        self.settle(space, at.region, live);
    }

    // Answers a request for another size of a live chunk.
    #[tactic(auto, unfolding(crate::specs::Ledger::resize))]
    pub fn realloc(&self, at: Addr, size: u64) -> Result<Addr, CtxError>
        ensures size { OnOk result ((size ≡ self.now.slots.size) × (size ≤ LARGEST)) }
        ensures at { IfOk result (λ to. to ≡ at) }
        ensures too_big { (result ≡ Err CtxError.TooBig) ↔ (LARGEST < size) }
        ensures unsupported { (held limit place : ℕ) → (result ≡ Err CtxError.Unsupported) ↔ (resize (ledger_of self.now) held limit place size ≡ Err CtxError.Unsupported) }
        ensures no_other { IfErr result (λ e. (e ≡ CtxError.TooBig) ⊎ (e ≡ CtxError.Unsupported)) }
    {
        if size > LARGEST {
            return Err(CtxError::TooBig);
        }
        if size != u64::from(self.slots.size) {
            return Err(CtxError::Unsupported);
        }
        Ok(at)
    }

    // Frees all chunks, and gives all blocks back.
    #[tactic(auto, unfolding(crate::specs::Ledger::created, crate::specs::Ledger::reset), using(crate::proofs::Full::Agrees_plain))]
    pub fn reset(&mut self, space: &mut Space)
        requires kept { IsKept self.old }
        requires agrees { Agrees (footprint (state_of self.old)) space.old }
        ensures kept { IsKept self.new }
        ensures ledger { ledger_of self.new ≡ reset (ledger_of self.old) }
        ensures account { (state_of self.new).layout.account ≡ (state_of self.old).layout.account }
        ensures context { (footprint (state_of self.new)).context ≡ (footprint (state_of self.old)).context }
        ensures chunks { self.new.slots.blocks.chunks ≡ [] }
        ensures asked { space.new.taken ≡ space.old.taken }
        ensures moves { Moves (footprint (state_of self.old)) (footprint (state_of self.new)) space.old space.new }
    {
        self.slots.reset(space);
        self.ranks.clear();
        self.empty = 0;
        self.free = 0;
    }

    // Gives all blocks and the first region back.
    #[tactic(auto, using(crate::proofs::Full::Agrees_plain))]
    pub fn discard(self, space: &mut Space)
        requires kept { IsKept self }
        requires agrees { Agrees (footprint (state_of self)) space.old }
        ensures moves { Moves (footprint (state_of self)) (nothing (state_of self).layout.account (footprint (state_of self)).context) space.old space.new }
        ensures asked { space.new.taken ≡ space.old.taken }
    {
        let Books {
            slots,
            empty: _,
            free: _,
            ranks: _,
        } = self;
        let Slots {
            blocks,
            size: _,
            stacks: _,
            last: _,
            alloc: _,
        } = slots;
        blocks.discard(space);
    }
}
