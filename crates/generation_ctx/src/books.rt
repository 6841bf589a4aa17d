//! The books of a Generation context: its blocks and numbers.
ghost use Rattle.std.specs.Prelude.{◌≡◌, ◌≢◌, ℕ, ◌+◌, ◌-◌, ◌%◌, ◌^◌, ◌<◌, ◌≤◌, ◌↔◌, ◌⊎◌, IsTrue, Ok, Err, Some, None, IfOk, IfErr, OnOk, OnErr, IfSome, IfNone, true, false, min, if◌then◌else◌, option_map, []};
ghost use Rattle.addr_space.specs.declared.Addr.{Addr};
ghost use Rattle.addr_space.specs.Space.{accounts, held, Asks, IsKnown};
ghost use Rattle.addr_space.specs.Footprint.{Agrees, Moves, Keeps, nothing};
ghost use Rattle.chunk_header.specs.Header.{AllHeaded, AllOfKind, TakesSpace};
ghost use Rattle.chunk_header.specs.declared.Kind.TheVariants.{Generation};
ghost use Rattle.ctx_blocks.specs.Layout.{footprint, block_at, chunk_at};
ghost use Rattle.ctx_blocks.specs.Steps.{PutsChunk};
ghost use Rattle.ctx_blocks.specs.declared.parts.Block.{Block};
ghost use Rattle.ctx_blocks.specs.declared.parts.Chunk.{Chunk};
ghost use Rattle.chunk_header.specs.Growth.{granted};
ghost use Rattle.generation_ctx.specs.Ledger.{created, is_spare, set_aside, stopped, turned, with_new, cut, from_spare, from_keeper, chosen, block_size, take_own, take_cut, take, emptied, lessened, give, resize, reset, stats};
ghost use Rattle.ctx_blocks.specs.Numbered.{AreAmong};
ghost use Rattle.generation_ctx.specs.State.{number_of, place_in};
ghost use Rattle.chunk_header.specs.declared.TheConstants.{LEAST_BLOCK, LARGEST_BLOCK};

use addr_space::{Addr, Space};
use chunk_header::{
    BLOCK_HEADER, CHUNK_HEADER, CtxError, Kind, LARGEST, OWN_HEADERS, Sizes, Stats, granted, grown,
};
use ctx_blocks::{Block, Blocks};
use std::alloc::Global;

/// All that a Generation context keeps.
#[derive(Drop)]
pub struct Books {
    pub sizes: Sizes,
    // The size of the next block.
    pub next: u32,
    // The region of the block that chunks are cut off.
    pub current: u32,
    // The region of an empty block that waits to be current.
    pub spare: Option<u32>,
    pub blocks: Blocks,
}

// The greatest request that is cut off a shared block.
const LIMIT: u32 = 524_288;

impl Books {
    ghost use Rattle.ctx_blocks.specs.Kept.{HasSize};
    ghost use Rattle.generation_ctx.specs.Kept.{ledger_of, state_of, IsIdle, IsKept};
    ghost use Rattle.generation_ctx.specs.Steps.{Rearranges, Allocates, Serves, Frees, Resizes, Lessens};

    // Room for the books of a context that is to come. It is made before the first region is taken, which can't be given
    // back without a trace.
    pub fn unplaced(alloc: Global) -> Result<Box<Books>, CtxError>
        ensures { IfErr result (λ e. e ≡ CtxError.Memory) }
    {
        let none = Sizes { init: 0, max: 0 };
        let books = Books {
            sizes: none,
            next: 0,
            current: 0,
            spare: None,
            blocks: Blocks::unplaced(alloc, Kind::Generation)?,
        };
        match Box::new(alloc, books) {
            Ok(books) => Ok(books),
            Err(_) => Err(CtxError::Memory),
        }
    }

    // The books of a new context.
    pub fn create(
        alloc: Global,
        space: &mut Space,
        account: u8,
        context: u32,
        sizes: Sizes,
    ) -> Result<Books, CtxError>
        requires account { account < accounts space.old }
        requires least { LEAST_BLOCK ≤ sizes.init }
        requires order { sizes.init ≤ sizes.max }
        requires most { sizes.max ≤ LARGEST_BLOCK }
        requires whole_init { sizes.init % 8 ≡ 0 }
        requires whole_max { sizes.max % 8 ≡ 0 }
        ensures kept { IfOk result IsKept }
        ensures ledger { IfOk result (λ b. ledger_of b ≡ created sizes.init sizes.max) }
        ensures account { IfOk result (λ b. b.blocks.account ≡ account) }
        ensures context { IfOk result (λ b. b.blocks.context ≡ context) }
        ensures chunks { IfOk result (λ b. b.blocks.chunks ≡ []) }
        ensures asked { OnOk result (Asks account sizes.init space.old space.new) }
        ensures moves { IfOk result (λ b. Moves (nothing account context) (footprint b.blocks) space.old space.new) }
        ensures no_space { (result ≡ Err CtxError.NoSpace) ↔ (space.old.limit < held space.old account + sizes.init) }
        ensures no_other { IfErr result (λ e. (e ≡ CtxError.NoSpace) ⊎ (e ≡ CtxError.Memory)) }
        ensures err { OnErr result (space.new ≡ space.old) }
    {
        let blocks = Blocks::create(
            alloc,
            space,
            Kind::Generation,
            account,
            context,
            1,
            sizes.init,
        )?;
        let current = blocks.keeper();
        Ok(Books {
            sizes,
            next: sizes.init,
            current,
            spare: None,
            blocks,
        })
    }

    // What the books say.
    #[tactic(auto, unfolding(crate::specs::Ledger::stats))]
    pub fn stats(&self) -> Stats
        ensures { result ≡ stats (ledger_of self.now) }
    {
        Stats {
            total: self.blocks.total(),
            blocks: self.blocks.len() as u64,
            free: self.blocks.rooms(),
            chunks: self.blocks.freed(),
        }
    }

    // The block in a region.
    fn block(&self, region: u32) -> Block
        requires { (block : Block) × (block_at self.now.blocks region ≡ Some block) }
        ensures { block_at self.now.blocks region ≡ Some result }
    {
        match self.blocks.block(region) {
            Some(block) => block,
            None => Block {
                number: 0,
                size: 0,
                room: 0,
                live: 0,
                freed: 0,
            },
        }
    }

    // Puts an empty block aside, as the spare where there is none, else back to the space.
    fn set_aside(&mut self, space: &mut Space, number: u32)
        requires kept { IsKept self.old }
        requires agrees { Agrees (footprint self.old.blocks) space.old }
        requires idle { IsIdle self.old.blocks self.old.current number }
        requires other { is_spare self.old.spare number ≡ false }
        ensures rearranges { Rearranges self.old self.new space.old space.new (set_aside (ledger_of self.old) (number_of self.old.blocks number)) }
        ensures among { AreAmong self.new.blocks self.old.blocks }
        ensures asked { space.new.taken ≡ space.old.taken }
        ensures current { self.new.current ≡ self.old.current }
        ensures others { (other : ℕ) → number ≢ other → block_at self.new.blocks other ≡ block_at self.old.blocks other }
    {
        match self.spare {
            None => self.spare = Some(number),
            Some(_) => self.blocks.give(space, number),
        }
    }

    // Puts a block that stopped being current aside, where it has no live chunk.
    fn stop(&mut self, space: &mut Space, number: u32)
        requires kept { IsKept self.old }
        requires agrees { Agrees (footprint self.old.blocks) space.old }
        requires block { (bytes : ℕ) × HasSize self.old.blocks number bytes }
        requires stopped { number ≢ self.old.current }
        requires other { is_spare self.old.spare number ≡ false }
        ensures rearranges { Rearranges self.old self.new space.old space.new (stopped (ledger_of self.old) (number_of self.old.blocks number)) }
        ensures among { AreAmong self.new.blocks self.old.blocks }
        ensures asked { space.new.taken ≡ space.old.taken }
        ensures current { self.new.current ≡ self.old.current }
        ensures others { (other : ℕ) → number ≢ other → block_at self.new.blocks other ≡ block_at self.old.blocks other }
    {
        if self.blocks.keeper() == number {
            return;
        }
        if self.block(number).live == 0 {
            self.set_aside(space, number);
        }
    }

    // Makes a block current, which isn't the spare any more.
    fn seat(&mut self, number: u32)
        ensures { self.new ≡ record self.old { current = number; spare = if is_spare self.old.spare number then None else self.old.spare } }
    {
        self.current = number;
        self.spare = match self.spare {
            Some(other) => { if other == number { None } else { Some(other) } }
            None => None,
        };
    }

    // Makes a block current that has some room.
    fn turn_to(&mut self, space: &mut Space, number: u32)
        requires kept { IsKept self.old }
        requires agrees { Agrees (footprint self.old.blocks) space.old }
        requires block { (block : Block) × (block_at self.old.blocks number ≡ Some block) × (0 < block.room) }
        requires other { number ≢ self.old.current }
        ensures rearranges { Rearranges self.old self.new space.old space.new (turned (ledger_of self.old) (number_of self.old.blocks number)) }
        ensures among { AreAmong self.new.blocks self.old.blocks }
        ensures asked { space.new.taken ≡ space.old.taken }
        ensures current { self.new.current ≡ number }
        ensures block { block_at self.new.blocks number ≡ block_at self.old.blocks number }
    {
        let old = self.current;
        self.seat(number);
        self.stop(space, old);
    }

    // Cuts a chunk off the current block.
    fn cut(&mut self, space: &mut Space, size: u32) -> Addr
        requires kept { IsKept self.old }
        requires agrees { Agrees (footprint self.old.blocks) space.old }
        requires size { size ≤ LIMIT }
        requires room { (block : Block) × (block_at self.old.blocks self.old.current ≡ Some block) × (granted size + CHUNK_HEADER ≤ block.room) }
        ensures allocates { Allocates self.old self.new space.old space.new size result (cut (ledger_of self.old) (granted size) 0) }
        ensures among { AreAmong self.new.blocks self.old.blocks }
        ensures asked { space.new.taken ≡ space.old.taken }
    {
        self.blocks
            .cut(space, self.current, size, granted(size), false)
    }

    // The spare block, where it has so many bytes.
    fn fitting_spare(&self, bytes: u32) -> Option<u32>
        requires { IsKept self.now }
        ensures value { from_spare (ledger_of self.now).spare (ledger_of self.now) bytes ≡ option_map (number_of self.now.blocks) result }
        ensures block { IfSome result (λ number. (block : Block) × (block_at self.now.blocks number ≡ Some block) × (bytes ≤ block.room)) }
        ensures other { IfSome result (λ number. number ≢ self.now.current) }
    {
        let number = self.spare?;
        if self.block(number).room < bytes {
            return None;
        }
        Some(number)
    }

    // The keeper, where it isn't current, has no live chunk and has so many bytes.
    fn fitting_keeper(&self, bytes: u32) -> Option<u32>
        requires { IsKept self.now }
        ensures value { from_keeper (ledger_of self.now) bytes ≡ option_map (number_of self.now.blocks) result }
        ensures block { IfSome result (λ number. (block : Block) × (block_at self.now.blocks number ≡ Some block) × (bytes ≤ block.room)) }
        ensures other { IfSome result (λ number. number ≢ self.now.current) }
    {
        let keeper = self.blocks.keeper();
        if self.current == keeper {
            return None;
        }
        let block = self.block(keeper);
        if block.live > 0 {
            return None;
        }
        if block.room < bytes {
            return None;
        }
        Some(keeper)
    }

    // Which block becomes current for so many bytes, where no new one is taken.
    #[tactic(auto, unfolding(crate::specs::Ledger::chosen))]
    fn choose(&self, bytes: u32) -> Option<u32>
        requires { IsKept self.now }
        ensures value { chosen (ledger_of self.now) bytes ≡ option_map (number_of self.now.blocks) result }
        ensures block { IfSome result (λ number. (block : Block) × (block_at self.now.blocks number ≡ Some block) × (bytes ≤ block.room)) }
        ensures other { IfSome result (λ number. number ≢ self.now.current) }
    {
        if let Some(number) = self.fitting_spare(bytes) {
            return Some(number);
        }
        self.fitting_keeper(bytes)
    }

    // Takes a new block for so many bytes.
    #[tactic(auto, unfolding(crate::specs::Ledger::block_size))]
    fn add(&mut self, space: &mut Space, bytes: u32) -> Result<u32, CtxError>
        requires kept { IsKept self.old }
        requires agrees { Agrees (footprint self.old.blocks) space.old }
        requires some { 8 ≤ bytes }
        requires most { bytes ≤ 2 ^ 20 }
        ensures ok { OnOk result (Rearranges self.old self.new space.old space.new (with_new (ledger_of self.old) (block_size (ledger_of self.old) bytes))) }
        ensures number { IfOk result (λ number. number_of self.new.blocks number ≡ (ledger_of self.old).count + 1) }
        ensures among { OnOk result (AreAmong self.old.blocks self.new.blocks) }
        ensures asked { OnOk result (Asks self.old.blocks.account (block_size (ledger_of self.old) bytes) space.old space.new) }
        ensures other { IfOk result (λ number. number ≢ self.old.current) }
        ensures current { OnOk result (self.new.current ≡ self.old.current) }
        ensures block { IfOk result (λ number. (block : Block) × (block_at self.new.blocks number ≡ Some block) × (bytes ≤ block.room)) }
        ensures fits { OnOk result (block_size (ledger_of self.old) bytes ≤ space.old.limit - held space.old self.old.blocks.account) }
        ensures no_space { (result ≡ Err CtxError.NoSpace) → space.old.limit - held space.old self.old.blocks.account < block_size (ledger_of self.old) bytes }
        ensures no_other { IfErr result (λ e. (e ≡ CtxError.NoSpace) ⊎ (e ≡ CtxError.Memory)) }
        ensures err { OnErr result (self.new ≡ self.old) }
        ensures err_space { OnErr result (space.new ≡ space.old) }
    {
        let size = grown(self.next, bytes + BLOCK_HEADER);
        let number = self.blocks.add(space, size)?;
        self.next = (self.next * 2).min(self.sizes.max);
        Ok(number)
    }

    // Cuts a chunk off another block than the current one.
    fn take_other(&mut self, space: &mut Space, size: u32) -> Result<Addr, CtxError>
        requires kept { IsKept self.old }
        requires agrees { Agrees (footprint self.old.blocks) space.old }
        requires size { size ≤ LIMIT }
        requires little { (block : Block) × (block_at self.old.blocks self.old.current ≡ Some block) × (block.room < granted size + CHUNK_HEADER) }
        ensures ok { IfOk result (λ at. Serves self.old self.new space.old space.new size at (take_cut (ledger_of self.old) (space.old.limit - held space.old self.old.blocks.account) (granted size))) }
        ensures no_space { result ≡ Err CtxError.NoSpace → take_cut (ledger_of self.old) (space.old.limit - held space.old self.old.blocks.account) (granted size) ≡ Err CtxError.NoSpace }
        ensures no_other { IfErr result (λ e. (e ≡ CtxError.NoSpace) ⊎ (e ≡ CtxError.Memory)) }
        ensures err { OnErr result (self.new ≡ self.old) }
        ensures err_space { OnErr result (space.new ≡ space.old) }
    {
        let bytes = granted(size) + CHUNK_HEADER;
        if let Some(number) = self.choose(bytes) {
            self.turn_to(space, number);
            return Ok(self.cut(space, size));
        }
        let number = self.add(space, bytes)?;
        self.turn_to(space, number);
        Ok(self.cut(space, size))
    }

    // Cuts a chunk off the current block, or off another one.
    fn take_cut(&mut self, space: &mut Space, size: u32) -> Result<Addr, CtxError>
        requires kept { IsKept self.old }
        requires agrees { Agrees (footprint self.old.blocks) space.old }
        requires size { size ≤ LIMIT }
        ensures ok { IfOk result (λ at. Serves self.old self.new space.old space.new size at (take_cut (ledger_of self.old) (space.old.limit - held space.old self.old.blocks.account) (granted size))) }
        ensures no_space { result ≡ Err CtxError.NoSpace → take_cut (ledger_of self.old) (space.old.limit - held space.old self.old.blocks.account) (granted size) ≡ Err CtxError.NoSpace }
        ensures no_other { IfErr result (λ e. (e ≡ CtxError.NoSpace) ⊎ (e ≡ CtxError.Memory)) }
        ensures err { OnErr result (self.new ≡ self.old) }
        ensures err_space { OnErr result (space.new ≡ space.old) }
    {
        if self.block(self.current).room >= granted(size) + CHUNK_HEADER {
            return Ok(self.cut(space, size));
        }
        self.take_other(space, size)
    }

    // Takes a block for one chunk.
    #[tactic(auto, unfolding(crate::specs::Ledger::take_own))]
    fn take_own(&mut self, space: &mut Space, size: u32) -> Result<Addr, CtxError>
        requires kept { IsKept self.old }
        requires agrees { Agrees (footprint self.old.blocks) space.old }
        requires size { size < 2 ^ 30 }
        ensures ok { IfOk result (λ at. Serves self.old self.new space.old space.new size at (take_own (ledger_of self.old) (space.old.limit - held space.old self.old.blocks.account) (granted size))) }
        ensures no_space { result ≡ Err CtxError.NoSpace → take_own (ledger_of self.old) (space.old.limit - held space.old self.old.blocks.account) (granted size) ≡ Err CtxError.NoSpace }
        ensures no_other { IfErr result (λ e. (e ≡ CtxError.NoSpace) ⊎ (e ≡ CtxError.Memory)) }
        ensures err { OnErr result (self.new ≡ self.old) }
        ensures err_space { OnErr result (space.new ≡ space.old) }
    {
        let room = granted(size);
        let number = self.blocks.add(space, room + OWN_HEADERS)?;
        Ok(self.blocks.cut(space, number, size, room, true))
    }

    // Serves a request of a size that isn't too big.
    #[tactic(auto, unfolding(crate::specs::Ledger::take))]
    fn take(&mut self, space: &mut Space, size: u32) -> Result<Addr, CtxError>
        requires kept { IsKept self.old }
        requires agrees { Agrees (footprint self.old.blocks) space.old }
        requires size { size ≤ LARGEST }
        ensures ok { IfOk result (λ at. Serves self.old self.new space.old space.new size at (take (ledger_of self.old) (space.old.limit - held space.old self.old.blocks.account) size)) }
        ensures no_space { result ≡ Err CtxError.NoSpace → take (ledger_of self.old) (space.old.limit - held space.old self.old.blocks.account) size ≡ Err CtxError.NoSpace }
        ensures no_other { IfErr result (λ e. (e ≡ CtxError.NoSpace) ⊎ (e ≡ CtxError.Memory)) }
        ensures err { OnErr result (self.new ≡ self.old) }
        ensures err_space { OnErr result (space.new ≡ space.old) }
    {
        if size > LIMIT {
            return self.take_own(space, size);
        }
        self.take_cut(space, size)
    }

    // Serves a request.
    pub fn alloc(&mut self, space: &mut Space, size: u64) -> Result<Addr, CtxError>
        requires kept { IsKept self.old }
        requires agrees { Agrees (footprint self.old.blocks) space.old }
        ensures ok { IfOk result (λ at. Serves self.old self.new space.old space.new size at (take (ledger_of self.old) (space.old.limit - held space.old self.old.blocks.account) size)) }
        ensures too_big { (result ≡ Err CtxError.TooBig) ↔ (LARGEST < size) }
        ensures no_space { result ≡ Err CtxError.NoSpace → take (ledger_of self.old) (space.old.limit - held space.old self.old.blocks.account) size ≡ Err CtxError.NoSpace }
        ensures no_other { IfErr result (λ e. (e ≡ CtxError.TooBig) ⊎ ((e ≡ CtxError.NoSpace) ⊎ (e ≡ CtxError.Memory))) }
        ensures err { OnErr result (state_of self.new ≡ state_of self.old) }
        ensures err_kept { OnErr result (IsKept self.new) }
        ensures err_space { OnErr result (space.new ≡ space.old) }
    {
        if size > LARGEST {
            return Err(CtxError::TooBig);
        }
        self.take(space, size as u32)
    }

    // Gives a shared block whose last live chunk was freed its whole room, or back.
    fn empty(&mut self, space: &mut Space, number: u32)
        requires kept { IsKept self.old }
        requires agrees { Agrees (footprint self.old.blocks) space.old }
        requires block { (block : Block) × (block_at self.old.blocks number ≡ Some block) × (block.live ≡ 0) }
        requires other { is_spare self.old.spare number ≡ false }
        ensures rearranges { Rearranges self.old self.new space.old space.new (emptied (ledger_of self.old) (number_of self.old.blocks number)) }
        ensures among { AreAmong self.new.blocks self.old.blocks }
        ensures asked { space.new.taken ≡ space.old.taken }
    {
        if self.blocks.keeper() == number {
            self.blocks.refill(number);
            return;
        }
        if self.current == number {
            self.blocks.refill(number);
            return;
        }
        match self.spare {
            None => {
                self.blocks.refill(number);
                self.spare = Some(number);
            }
            Some(_) => self.blocks.give(space, number),
        }
    }

    // Forgets a chunk of a shared block.
    fn forget(&mut self, space: &Space, at: Addr)
        requires kept { IsKept self.old }
        requires agrees { Agrees (footprint self.old.blocks) space.now }
        requires chunk { (c : Chunk) × (chunk_at self.old.blocks at ≡ Some c) × (c.own ≡ false) }
        ensures frees { Frees self.old self.new space.now space.now at }
        ensures ledger { ledger_of self.new ≡ lessened (ledger_of self.old) (number_of self.old.blocks at.region) }
        ensures other { is_spare self.new.spare at.region ≡ false }
        ensures less { Lessens self.old self.new at.region }
    {
        self.blocks.laid();
        let _ = self.blocks.remove(at);
        self.blocks.laid();
    }

    // Frees a chunk of a shared block.
    fn free_shared(&mut self, space: &mut Space, at: Addr)
        requires kept { IsKept self.old }
        requires agrees { Agrees (footprint self.old.blocks) space.old }
        requires chunk { (c : Chunk) × (chunk_at self.old.blocks at ≡ Some c) × (c.own ≡ false) }
        ensures frees { Frees self.old self.new space.old space.new at }
        ensures ledger { (c : Chunk) → chunk_at self.old.blocks at ≡ Some c → ledger_of self.new ≡ give (ledger_of self.old) (place_in self.old.blocks at.region c) }
        ensures asked { space.new.taken ≡ space.old.taken }
    {
        self.forget(space, at);
        if self.block(at.region).live == 0 {
            self.empty(space, at.region);
        }
    }

    // Frees a chunk that has a block for itself.
    fn free_own(&mut self, space: &mut Space, at: Addr)
        requires kept { IsKept self.old }
        requires agrees { Agrees (footprint self.old.blocks) space.old }
        requires chunk { (c : Chunk) × (chunk_at self.old.blocks at ≡ Some c) × (c.own ≡ true) }
        ensures frees { Frees self.old self.new space.old space.new at }
        ensures ledger { (c : Chunk) → chunk_at self.old.blocks at ≡ Some c → ledger_of self.new ≡ give (ledger_of self.old) (place_in self.old.blocks at.region c) }
        ensures asked { space.new.taken ≡ space.old.taken }
    {
        let _ = self.blocks.remove(at);
        self.blocks.laid();
        self.blocks.give(space, at.region);
    }

    // Whether a live chunk has its block for itself.
    #[inline]
    fn is_own(&self, space: &Space, at: Addr) -> bool
        requires kept { IsKept self.now }
        requires agrees { Agrees (footprint self.now.blocks) space.now }
        requires chunk { (c : Chunk) × (chunk_at self.now.blocks at ≡ Some c) }
        ensures { (c : Chunk) → chunk_at self.now.blocks at ≡ Some c → result ≡ c.own }
    {
        self.blocks.header(space, at).own
    }

    // Frees a chunk.
    pub fn free(&mut self, space: &mut Space, at: Addr)
        requires kept { IsKept self.old }
        requires agrees { Agrees (footprint self.old.blocks) space.old }
        requires chunk { (c : Chunk) × (chunk_at self.old.blocks at ≡ Some c) }
        ensures frees { Frees self.old self.new space.old space.new at }
        ensures ledger { (c : Chunk) → chunk_at self.old.blocks at ≡ Some c → ledger_of self.new ≡ give (ledger_of self.old) (place_in self.old.blocks at.region c) }
        ensures asked { space.new.taken ≡ space.old.taken }
    {
        if self.is_own(space, at) {
            self.free_own(space, at);
        } else {
            self.free_shared(space, at);
        }
    }

    // Takes a new chunk, copies the first bytes of one that can't have so many, and frees it.
    fn relocate(
        &mut self,
        space: &mut Space,
        at: Addr,
        keep: u32,
        size: u32,
    ) -> Result<Addr, CtxError>
        requires kept { IsKept self.old }
        requires agrees { Agrees (footprint self.old.blocks) space.old }
        requires size { size ≤ LARGEST }
        requires chunk { (c : Chunk) × (chunk_at self.old.blocks at ≡ Some c) × (keep ≤ c.size) × (c.room < size) }
        requires keep { keep ≤ size }
        requires known { IsKnown space.old at keep }
        ensures ok { IfOk result (λ to. Resizes self.old self.new space.old space.new at to keep size) }
        ensures no_space { result ≡ Err CtxError.NoSpace → (c : Chunk) → chunk_at self.old.blocks at ≡ Some c → resize (ledger_of self.old) (held space.old self.old.blocks.account) space.old.limit (place_in self.old.blocks at.region c) size ≡ Err CtxError.NoSpace }
        ensures no_other { IfErr result (λ e. (e ≡ CtxError.NoSpace) ⊎ (e ≡ CtxError.Memory)) }
        ensures err { OnErr result (state_of self.new ≡ state_of self.old) }
        ensures err_kept { OnErr result (IsKept self.new) }
        ensures err_space { OnErr result (space.new ≡ space.old) }
    {
        let to = self.take(space, size)?;
        self.blocks.carry(space, at, to, keep);
        self.free(space, at);
        Ok(to)
    }

    // The bytes that the live chunk at an address may have: those of its header, or of its block.
    fn room_at(&self, space: &Space, at: Addr) -> u32
        requires kept { IsKept self.now }
        requires agrees { Agrees (footprint self.now.blocks) space.now }
        requires chunk { (c : Chunk) × (chunk_at self.now.blocks at ≡ Some c) }
        ensures { (c : Chunk) → chunk_at self.now.blocks at ≡ Some c → result ≡ c.room }
    {
        let header = self.blocks.header(space, at);
        if header.own {
            return self.block(at.region).size - OWN_HEADERS;
        }
        header.value
    }

    // Gives a chunk another size that it may have where it is.
    fn set_size(&mut self, space: &Space, at: Addr, keep: u32, size: u32)
        requires kept { IsKept self.old }
        requires agrees { Agrees (footprint self.old.blocks) space.now }
        requires size { size ≤ LARGEST }
        requires chunk { (c : Chunk) × (chunk_at self.old.blocks at ≡ Some c) × (size ≤ c.room) }
        ensures { Resizes self.old self.new space.now space.now at at keep size }
    {
        let _ = (space.accounts(), keep);
        self.blocks.set_size(at, size);
    }

    // Gives a chunk another size, of which the first bytes are known.
    pub fn realloc(
        &mut self,
        space: &mut Space,
        at: Addr,
        keep: u64,
        size: u64,
    ) -> Result<Addr, CtxError>
        requires kept { IsKept self.old }
        requires agrees { Agrees (footprint self.old.blocks) space.old }
        requires chunk { (c : Chunk) × (chunk_at self.old.blocks at ≡ Some c) × (keep ≤ c.size) }
        requires known { IsKnown space.old at keep }
        ensures ok { IfOk result (λ to. Resizes self.old self.new space.old space.new at to (min keep size) size) }
        ensures too_big { (result ≡ Err CtxError.TooBig) ↔ (LARGEST < size) }
        ensures no_space { result ≡ Err CtxError.NoSpace → (c : Chunk) → chunk_at self.old.blocks at ≡ Some c → resize (ledger_of self.old) (held space.old self.old.blocks.account) space.old.limit (place_in self.old.blocks at.region c) size ≡ Err CtxError.NoSpace }
        ensures no_other { IfErr result (λ e. (e ≡ CtxError.TooBig) ⊎ ((e ≡ CtxError.NoSpace) ⊎ (e ≡ CtxError.Memory))) }
        ensures err { OnErr result (state_of self.new ≡ state_of self.old) }
        ensures err_kept { OnErr result (IsKept self.new) }
        ensures err_space { OnErr result (space.new ≡ space.old) }
    {
        if size > LARGEST {
            return Err(CtxError::TooBig);
        }
        let size = size as u32;
        let keep = keep.min(u64::from(size)) as u32;
        if self.room_at(space, at) >= size {
            self.set_size(space, at, keep, size);
            return Ok(at);
        }
        self.relocate(space, at, keep, size)
    }

    // Gives back all that was taken since the context was created.
    pub fn reset(&mut self, space: &mut Space)
        requires kept { IsKept self.old }
        requires agrees { Agrees (footprint self.old.blocks) space.old }
        ensures kept { IsKept self.new }
        ensures ledger { ledger_of self.new ≡ reset (ledger_of self.old) }
        ensures chunks { self.new.blocks.chunks ≡ [] }
        ensures asked { space.new.taken ≡ space.old.taken }
        ensures moves { Moves (footprint self.old.blocks) (footprint self.new.blocks) space.old space.new }
    {
        self.blocks.reset(space);
        self.current = self.blocks.keeper();
        self.next = self.sizes.init;
        self.spare = None;
    }

    // Gives everything back.
    pub fn discard(self, space: &mut Space)
        requires { Agrees (footprint self.blocks) space.old }
        ensures moves { Moves (footprint self.blocks) (nothing self.blocks.account self.blocks.context) space.old space.new }
        ensures asked { space.new.taken ≡ space.old.taken }
    {
        let Books {
            sizes: _,
            next: _,
            current: _,
            spare: _,
            blocks,
        } = self;
        blocks.discard(space);
    }

    // Each live chunk has a header that leads to the context.
    pub fn headed(&self)
        requires { IsKept self.now }
        ensures headed { AllHeaded (footprint self.now.blocks) }
        ensures kinds { AllOfKind Generation (footprint self.now.blocks) }
        ensures spaces { (at : Addr) (chunk : Chunk) → chunk_at self.now.blocks at ≡ Some chunk → TakesSpace (footprint self.now.blocks) at (chunk.room + CHUNK_HEADER) }
    {
        self.blocks.headed();
    }
}
