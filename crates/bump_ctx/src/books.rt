//! The books of a Bump context: its blocks and numbers.
ghost use Rattle.std.specs.Prelude.{◌≡◌, ℕ, ◌+◌, ◌-◌, ◌%◌, ◌^◌, ◌<◌, ◌≤◌, ◌↔◌, ◌⊎◌, Ok, Err, Some, None, IfOk, IfErr, OnOk, OnErr};
ghost use Rattle.addr_space.specs.declared.Addr.{Addr};
ghost use Rattle.addr_space.specs.Space.{accounts, held, Asks};
ghost use Rattle.addr_space.specs.Footprint.{Agrees, Moves, Keeps, nothing};
ghost use Rattle.ctx_blocks.specs.Layout.{footprint};
ghost use Rattle.chunk_header.specs.Growth.{granted};
ghost use Rattle.bump_ctx.specs.Ledger.{created, cut_off, renewed, block_size, served, take_own, take_cut, take, stats};
ghost use Rattle.bump_ctx.specs.State.{place_in};
ghost use Rattle.addr_space.specs.Live.{PutsLive};
ghost use Rattle.chunk_header.specs.declared.TheConstants.{LEAST_BLOCK, LARGEST_BLOCK};

use addr_space::{Addr, Space};
use chunk_header::{BLOCK_HEADER, CtxError, Kind, LARGEST, Sizes, Stats, granted, grown};
use ctx_blocks::Blocks;
use std::alloc::Global;

/// All that a Bump context keeps.
#[derive(Drop)]
pub struct Books {
    pub sizes: Sizes,
    // The size of the next block.
    pub next: u32,
    // The region of the newest block that isn't one chunk's own.
    pub newest: u32,
    pub blocks: Blocks,
}

// The greatest request that is cut off a shared block.
const LIMIT: u32 = 524_288;

impl Books {
    ghost use Rattle.bump_ctx.specs.Kept.{ledger_of, state_of, room_at, IsKept};
    ghost use Rattle.bump_ctx.specs.Steps.{Allocates};

    // Room for the books of a context that is to come. It is made before the first region is taken, which can't be given
    // back without a trace.
    pub fn unplaced(alloc: Global) -> Result<Box<Books>, CtxError>
        ensures { IfErr result (λ e. e ≡ CtxError.Memory) }
    {
        let none = Sizes { init: 0, max: 0 };
        let books = Books {
            sizes: none,
            next: 0,
            newest: 0,
            blocks: Blocks::unplaced(alloc, Kind::Bump)?,
        };
        match Box::new(alloc, books) {
            Ok(books) => Ok(books),
            Err(_) => Err(CtxError::Memory),
        }
    }

    // The books of a new context.
    pub fn create(
        alloc: Global,
        space: &mut Space,
        account: u8,
        context: u32,
        sizes: Sizes,
    ) -> Result<Books, CtxError>
        requires account { account < accounts space.old }
        requires least { LEAST_BLOCK ≤ sizes.init }
        requires order { sizes.init ≤ sizes.max }
        requires most { sizes.max ≤ LARGEST_BLOCK }
        requires whole_init { sizes.init % 8 ≡ 0 }
        requires whole_max { sizes.max % 8 ≡ 0 }
        ensures kept { IfOk result IsKept }
        ensures ledger { IfOk result (λ b. ledger_of b ≡ created sizes.init sizes.max) }
        ensures account { IfOk result (λ b. b.blocks.account ≡ account) }
        ensures context { IfOk result (λ b. b.blocks.context ≡ context) }
        ensures place { IfOk result (λ b. (at : Addr) → place_in b.blocks at ≡ None) }
        ensures live { IfOk result (λ b. (at : Addr) → (footprint b.blocks).live at ≡ None) }
        ensures moves { IfOk result (λ b. Moves (nothing account context) (footprint b.blocks) space.old space.new) }
        ensures asked { OnOk result (Asks account sizes.init space.old space.new) }
        ensures no_space { (result ≡ Err CtxError.NoSpace) ↔ (space.old.limit < held space.old account + sizes.init) }
        ensures no_other { IfErr result (λ e. (e ≡ CtxError.NoSpace) ⊎ (e ≡ CtxError.Memory)) }
        ensures err { OnErr result (space.new ≡ space.old) }
    {
        let blocks = Blocks::create(alloc, space, Kind::Bump, account, context, 1, sizes.init)?;
        let newest = blocks.keeper();
        Ok(Books {
            sizes,
            next: sizes.init,
            newest,
            blocks,
        })
    }

    // What the books say.
    #[tactic(auto, using(ctx_blocks::proofs::Totals::room_within), unfolding(crate::specs::Ledger::stats))]
    pub fn stats(&self) -> Stats
        requires { IsKept self.now }
        ensures { result ≡ stats (ledger_of self.now) }
    {
        Stats {
            total: self.blocks.total(),
            blocks: self.blocks.len() as u64,
            free: self.blocks.rooms(),
            chunks: 0,
        }
    }

    // The room of the newest block.
    fn room(&self) -> u32
        ensures { result ≡ room_at self.now.blocks self.now.newest }
    {
        match self.blocks.block(self.newest) {
            Some(block) => block.room,
            None => 0,
        }
    }

    // Cuts a chunk off the newest block.
    fn cut(&mut self, space: &mut Space, size: u32, room: u32) -> Addr
        requires kept { IsKept self.old }
        requires agrees { Agrees (footprint self.old.blocks) space.old }
        requires room { room ≤ room_at self.old.blocks self.old.newest }
        requires some { 0 < room }
        requires fits { size ≤ room }
        requires whole { room % 8 ≡ 0 }
        requires value { room < 2 ^ 30 }
        ensures { Allocates self.old self.new space.old space.new size result (Ok (served (cut_off (ledger_of self.old) room) 0)) }
    {
        self.blocks.cut(space, self.newest, size, room, false)
    }

    // Takes a new block for a chunk that has so many bytes.
    #[tactic(auto, unfolding(crate::specs::Ledger::block_size))]
    fn renew(&mut self, space: &mut Space, room: u32) -> Result<(), CtxError>
        requires kept { IsKept self.old }
        requires agrees { Agrees (footprint self.old.blocks) space.old }
        requires some { 8 ≤ room }
        requires most { room ≤ LIMIT }
        ensures kept { OnOk result (IsKept self.new) }
        ensures ledger { OnOk result (ledger_of self.new ≡ renewed (ledger_of self.old) (block_size (ledger_of self.old) room)) }
        ensures room { OnOk result (room ≤ room_at self.new.blocks self.new.newest) }
        ensures chunks { OnOk result (self.new.blocks.chunks ≡ self.old.blocks.chunks) }
        ensures account { OnOk result (self.new.blocks.account ≡ self.old.blocks.account) }
        ensures moves { OnOk result (Moves (footprint self.old.blocks) (footprint self.new.blocks) space.old space.new) }
        ensures keeps { OnOk result (Keeps (footprint self.old.blocks) (footprint self.new.blocks) space.old space.new) }
        ensures asked { OnOk result (Asks self.old.blocks.account (block_size (ledger_of self.old) room) space.old space.new) }
        ensures fits { OnOk result (block_size (ledger_of self.old) room ≤ space.old.limit - held space.old self.old.blocks.account) }
        ensures no_space { (result ≡ Err CtxError.NoSpace) → space.old.limit - held space.old self.old.blocks.account < block_size (ledger_of self.old) room }
        ensures no_other { IfErr result (λ e. (e ≡ CtxError.NoSpace) ⊎ (e ≡ CtxError.Memory)) }
        ensures err { OnErr result (self.new ≡ self.old) }
        ensures err_space { OnErr result (space.new ≡ space.old) }
    {
        let size = grown(self.next, room + BLOCK_HEADER);
        self.newest = self.blocks.add(space, size)?;
        self.next = (self.next * 2).min(self.sizes.max);
        Ok(())
    }

    // Cuts a chunk off the newest block, or off a new one.
    #[tactic(auto, unfolding(crate::specs::Ledger::take_cut, crate::specs::Ledger::take_new))]
    fn take_cut(&mut self, space: &mut Space, size: u32) -> Result<Addr, CtxError>
        requires kept { IsKept self.old }
        requires agrees { Agrees (footprint self.old.blocks) space.old }
        requires size { size ≤ LIMIT }
        ensures ok { IfOk result (λ at. Allocates self.old self.new space.old space.new size at (take_cut (ledger_of self.old) (space.old.limit - held space.old self.old.blocks.account) (granted size))) }
        ensures no_space { result ≡ Err CtxError.NoSpace → take_cut (ledger_of self.old) (space.old.limit - held space.old self.old.blocks.account) (granted size) ≡ Err CtxError.NoSpace }
        ensures no_other { IfErr result (λ e. (e ≡ CtxError.NoSpace) ⊎ (e ≡ CtxError.Memory)) }
        ensures err { OnErr result (self.new ≡ self.old) }
        ensures err_space { OnErr result (space.new ≡ space.old) }
    {
        let room = granted(size);
        if self.room() >= room {
            return Ok(self.cut(space, size, room));
        }
        self.renew(space, room)?;
        Ok(self.cut(space, size, room))
    }

    // Takes a block for one chunk.
    #[tactic(auto, unfolding(crate::specs::Ledger::take_own))]
    fn take_own(&mut self, space: &mut Space, size: u32) -> Result<Addr, CtxError>
        requires kept { IsKept self.old }
        requires agrees { Agrees (footprint self.old.blocks) space.old }
        requires size { size < 2 ^ 30 }
        ensures ok { IfOk result (λ at. Allocates self.old self.new space.old space.new size at (take_own (ledger_of self.old) (space.old.limit - held space.old self.old.blocks.account) (granted size + BLOCK_HEADER))) }
        ensures no_space { result ≡ Err CtxError.NoSpace → take_own (ledger_of self.old) (space.old.limit - held space.old self.old.blocks.account) (granted size + BLOCK_HEADER) ≡ Err CtxError.NoSpace }
        ensures no_other { IfErr result (λ e. (e ≡ CtxError.NoSpace) ⊎ (e ≡ CtxError.Memory)) }
        ensures err { OnErr result (self.new ≡ self.old) }
        ensures err_space { OnErr result (space.new ≡ space.old) }
    {
        let room = granted(size);
        let number = self.blocks.add(space, room + BLOCK_HEADER)?;
        Ok(self.blocks.cut(space, number, size, room, true))
    }

    // Serves a request of a size that isn't too big.
    #[tactic(auto, unfolding(crate::specs::Ledger::take))]
    fn take(&mut self, space: &mut Space, size: u32) -> Result<Addr, CtxError>
        requires kept { IsKept self.old }
        requires agrees { Agrees (footprint self.old.blocks) space.old }
        requires size { size ≤ LARGEST }
        ensures ok { IfOk result (λ at. Allocates self.old self.new space.old space.new size at (take (ledger_of self.old) (space.old.limit - held space.old self.old.blocks.account) size)) }
        ensures no_space { result ≡ Err CtxError.NoSpace → take (ledger_of self.old) (space.old.limit - held space.old self.old.blocks.account) size ≡ Err CtxError.NoSpace }
        ensures no_other { IfErr result (λ e. (e ≡ CtxError.NoSpace) ⊎ (e ≡ CtxError.Memory)) }
        ensures err { OnErr result (self.new ≡ self.old) }
        ensures err_space { OnErr result (space.new ≡ space.old) }
    {
        if size > LIMIT {
            return self.take_own(space, size);
        }
        self.take_cut(space, size)
    }

    // Serves a request.
    pub fn alloc(&mut self, space: &mut Space, size: u64) -> Result<Addr, CtxError>
        requires kept { IsKept self.old }
        requires agrees { Agrees (footprint self.old.blocks) space.old }
        ensures ok { IfOk result (λ at. Allocates self.old self.new space.old space.new size at (take (ledger_of self.old) (space.old.limit - held space.old self.old.blocks.account) size)) }
        ensures too_big { (result ≡ Err CtxError.TooBig) ↔ (LARGEST < size) }
        ensures no_space { result ≡ Err CtxError.NoSpace → take (ledger_of self.old) (space.old.limit - held space.old self.old.blocks.account) size ≡ Err CtxError.NoSpace }
        ensures no_other { IfErr result (λ e. (e ≡ CtxError.TooBig) ⊎ ((e ≡ CtxError.NoSpace) ⊎ (e ≡ CtxError.Memory))) }
        ensures err { OnErr result (state_of self.new ≡ state_of self.old) }
        ensures err_kept { OnErr result (IsKept self.new) }
        ensures err_space { OnErr result (space.new ≡ space.old) }
    {
        if size > LARGEST {
            return Err(CtxError::TooBig);
        }
        self.take(space, size as u32)
    }

    // Gives back all that was taken since the context was created.
    pub fn reset(&mut self, space: &mut Space)
        requires kept { IsKept self.old }
        requires agrees { Agrees (footprint self.old.blocks) space.old }
        ensures kept { IsKept self.new }
        ensures ledger { ledger_of self.new ≡ created self.old.sizes.init self.old.sizes.max }
        ensures place { (at : Addr) → place_in self.new.blocks at ≡ None }
        ensures live { (at : Addr) → (footprint self.new.blocks).live at ≡ None }
        ensures moves { Moves (footprint self.old.blocks) (footprint self.new.blocks) space.old space.new }
        ensures asked { space.new.taken ≡ space.old.taken }
    {
        self.blocks.reset(space);
        self.newest = self.blocks.keeper();
        self.next = self.sizes.init;
    }

    // Gives everything back.
    pub fn discard(self, space: &mut Space)
        requires { Agrees (footprint self.blocks) space.old }
        ensures moves { Moves (footprint self.blocks) (nothing self.blocks.account self.blocks.context) space.old space.new }
        ensures asked { space.new.taken ≡ space.old.taken }
    {
        self.blocks.discard(space);
    }
}
