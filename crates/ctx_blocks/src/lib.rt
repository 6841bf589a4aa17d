//! The blocks of a memory context and the live chunks in them.
//!
//! A context of any kind cuts its chunks off the ends of blocks, which are regions of a space. The first block
//! is the keeper: its region begins with 200 bytes of the context's own. A block's header has 40 bytes, and that
//! of a chunk 8, but for a Bump context, whose chunks have none. Which chunk is cut off which block, and when a
//! block is taken or given back, is for the kinds of contexts to choose.
#![tactic(auto)]

ghost use Rattle.std.specs.Prelude.{◌≡◌, ◌≢◌, ℕ, ◌+◌, ◌-◌, ◌*◌, ◌%◌, ◌^◌, ◌<◌, ◌≤◌, ◌↔◌, ◌⊎◌, Ok, Err, Some, None, IfOk, IfErr, OnOk, OnErr, length, [], ◌∷◌, true, false};
ghost use Rattle.addr_space.specs.declared.Addr.{Addr};
ghost use Rattle.chunk_header.specs.declared.TheConstants.{CONTEXT_BYTES, BLOCK_HEADER, CHUNK_HEADER, KEEPER_HEADERS, OWN_HEADERS};

mod books;
mod chunks;
mod parts;

use addr_space::{Addr, Space};
use books::Books;
use chunk_header::{CtxError, Header, Kind};
pub use parts::{Block, Chunk};
use std::alloc::Global;
use std::marker::Model;

/// The blocks of a context, and the live chunks in them.
#[derive(Drop)]
pub struct Blocks {
    books: Books,
}

impl Model for Blocks {
    ghost use Rattle.ctx_blocks.specs.Layout.{Layout};

    ghost Value = { Layout };

    ghost use Rattle.ctx_blocks.specs.Kept.{layout_of, IsKept};

    ghost view = { λ b. layout_of b.books };

    ghost invariant = { λ b. IsKept b.books };
}

impl Blocks {
    ghost use Rattle.addr_space.specs.Space.{accounts, held, Asks, IsKnown};
    ghost use Rattle.addr_space.specs.Footprint.{nothing, Agrees, Moves, Keeps, KeepsBut};
    ghost use Rattle.addr_space.specs.Live.{HasBytesOf};
    ghost use Rattle.chunk_header.specs.declared.Kind.TheVariants.{Slab, Generation};
    ghost use Rattle.chunk_header.specs.Header.{AllHeaded, AllOfKind, TakesSpace};
    ghost use Rattle.ctx_blocks.specs.declared.parts.Block.{Block};
    ghost use Rattle.ctx_blocks.specs.declared.parts.Chunk.{Chunk};
    ghost use Rattle.ctx_blocks.specs.Layout.{block_at, chunk_at, total, rooms, all_freed, start_of, header_room, header_of, whole_block, whole_of, keeper_alone, footprint};
    ghost use Rattle.ctx_blocks.specs.Kept.{IsFilled, IsPlaced, IsClear, IsFirst, AreRising};
    ghost use Rattle.ctx_blocks.specs.Steps.{PutsBlock, DropsBlock, PutsChunk, SameContext, MovesStill};

    /// The blocks of a context that is new: a first region of `size` bytes, for an account of the space. `context`
    /// is the number that the blocks' headers keep, and `first` that from which the blocks are counted. A region of
    /// 200 bytes has no room for a block's header.
    ///
    /// `NoSpace` comes where the region doesn't fit, and before `Memory`. A refused call changes nothing.
    pub fn create(
        alloc: Global,
        space: &mut Space,
        kind: Kind,
        account: u8,
        context: u32,
        first: u64,
        size: u32,
    ) -> Result<Blocks, CtxError>
        requires account { account < accounts space.old }
        requires least { CONTEXT_BYTES ≤ size }
        requires most { size ≤ 2 ^ 23 }
        requires whole { size % 8 ≡ 0 }
        requires roomy { (size ≡ CONTEXT_BYTES) ⊎ (KEEPER_HEADERS ≤ size) }
        ensures kind { IfOk result (λ b. b.kind ≡ kind) }
        ensures account { IfOk result (λ b. b.account ≡ account) }
        ensures context { IfOk result (λ b. b.context ≡ context) }
        ensures numbers { IfOk result (λ b. (b.first_number ≡ first) × (b.last_number ≡ first)) }
        ensures blocks { IfOk result (λ b. b.blocks ≡ keeper_alone b.keeper first size) }
        ensures chunks { IfOk result (λ b. b.chunks ≡ []) }
        ensures moves { IfOk result (λ b. Moves (nothing account context) (footprint b) space.old space.new) }
        ensures asked { OnOk result (Asks account size space.old space.new) }
        ensures no_space { (result ≡ Err CtxError.NoSpace) ↔ (space.old.limit < held space.old account + size) }
        ensures no_other { IfErr result (λ e. (e ≡ CtxError.NoSpace) ⊎ (e ≡ CtxError.Memory)) }
        ensures err { OnErr result (space.new ≡ space.old) }
    {
        let books = Books::create(alloc, space, kind, account, context, first, size)?;
        Ok(Blocks { books })
    }

    /// The blocks of a context that is to come: they stand in no space, and hold the place of those that `create` makes.
    pub fn unplaced(alloc: Global, kind: Kind) -> Result<Blocks, CtxError>
        ensures kind { IfOk result (λ b. b.kind ≡ kind) }
        ensures only_memory { IfErr result (λ e. e ≡ CtxError.Memory) }
    {
        let books = Books::unplaced(alloc, kind)?;
        Ok(Blocks { books })
    }

    /// Takes a block of `size` bytes, the last one from now on, which has the next number; writes its header and answers
    /// its region.
    ///
    /// `Memory` comes where there is none to note the block, and `NoSpace` where the account has less left. A refused
    /// call changes nothing.
    pub fn add(&mut self, space: &mut Space, size: u32) -> Result<u32, CtxError>
        requires agrees { Agrees (footprint self.old) space.old }
        requires least { OWN_HEADERS ≤ size }
        requires most { size ≤ 2 ^ 31 }
        requires whole { size % 8 ≡ 0 }
        ensures same { OnOk result (SameContext self.old self.new) }
        ensures fresh { IfOk result (λ number. block_at self.old number ≡ None) }
        ensures block { IfOk result (λ number. PutsBlock self.old self.new number (record { number = self.old.last_number + 1; size = size; room = size - BLOCK_HEADER; live = 0; freed = 0 })) }
        ensures chunks { OnOk result (self.new.chunks ≡ self.old.chunks) }
        ensures last { OnOk result (self.new.last_number ≡ self.old.last_number + 1) }
        ensures total { OnOk result (total self.new ≡ total self.old + size) }
        ensures moves { Moves (footprint self.old) (footprint self.new) space.old space.new }
        ensures keeps { Keeps (footprint self.old) (footprint self.new) space.old space.new }
        ensures asked { OnOk result (Asks self.old.account size space.old space.new) }
        ensures fits { OnOk result (size ≤ space.old.limit - held space.old self.old.account) }
        ensures no_space { (result ≡ Err CtxError.NoSpace) → space.old.limit - held space.old self.old.account < size }
        ensures no_other { IfErr result (λ e. (e ≡ CtxError.NoSpace) ⊎ (e ≡ CtxError.Memory)) }
        ensures err { OnErr result (self.new ≡ self.old) }
        ensures err_space { OnErr result (space.new ≡ space.old) }
    {
        self.books.add(space, size)
    }

    /// Cuts a live chunk off the room of a block, writes its header and answers its address. `size` bytes of it were
    /// asked for, it may have `room`, a multiple of 8, and `own` says whether it has the block for itself.
    #[inline]
    pub fn cut(&mut self, space: &mut Space, number: u32, size: u32, room: u32, own: bool) -> Addr
        requires agrees { Agrees (footprint self.old) space.old }
        requires block { (b : Block) × (block_at self.old number ≡ Some b) × (header_room self.old + room ≤ b.room) }
        requires some { 0 < header_room self.old + room }
        requires fits { size ≤ room }
        requires whole { room % 8 ≡ 0 }
        requires value { (own ≡ true) ⊎ (room < 2 ^ 30) }
        ensures same { SameContext self.old self.new }
        ensures last { self.new.last_number ≡ self.old.last_number }
        ensures region { result.region ≡ number }
        ensures offset { (b : Block) → block_at self.old number ≡ Some b → result.offset ≡ b.size - b.room + header_room self.old }
        ensures fresh { chunk_at self.old result ≡ None }
        ensures chunk { PutsChunk self.old self.new result (Some (record { size = size; room = room; own = own })) }
        ensures block { (b : Block) → block_at self.old number ≡ Some b → PutsBlock self.old self.new number (record b { room = b.room - (header_room self.old + room); live = b.live + 1 }) }
        ensures moves { Moves (footprint self.old) (footprint self.new) space.old space.new }
        ensures keeps { Keeps (footprint self.old) (footprint self.new) space.old space.new }
        ensures asked { space.new.taken ≡ space.old.taken }
    {
        self.books.cut(space, number, size, room, own)
    }

    /// Puts a live chunk at an address of a block where chunks were cut off and freed, and writes its header. It
    /// takes the place of one that was freed.
    #[inline]
    pub fn place(&mut self, space: &mut Space, at: Addr, size: u32, room: u32)
        requires agrees { Agrees (footprint self.old) space.old }
        requires block { (b : Block) × (block_at self.old at.region ≡ Some b) × (at.offset + room + b.room ≤ b.size) × (1 ≤ b.freed) }
        requires first { start_of self.old at.region + BLOCK_HEADER + header_room self.old ≤ at.offset }
        requires whole { at.offset % 8 ≡ 0 }
        requires some { 0 < header_room self.old + room }
        requires fits { size ≤ room }
        requires value { room < 2 ^ 30 }
        requires clear { (other : Addr) (c : Chunk) → chunk_at self.old other ≡ Some c → IsClear (header_room self.old) other c at (record { size = size; room = room; own = false }) }
        ensures same { SameContext self.old self.new }
        ensures last { self.new.last_number ≡ self.old.last_number }
        ensures fresh { chunk_at self.old at ≡ None }
        ensures chunk { PutsChunk self.old self.new at (Some (record { size = size; room = room; own = false })) }
        ensures block { (b : Block) → block_at self.old at.region ≡ Some b → PutsBlock self.old self.new at.region (record b { live = b.live + 1; freed = b.freed - 1 }) }
        ensures moves { Moves (footprint self.old) (footprint self.new) space.old space.new }
        ensures keeps { Keeps (footprint self.old) (footprint self.new) space.old space.new }
        ensures asked { space.new.taken ≡ space.old.taken }
    {
        self.books.place(space, at, size, room);
    }

    /// Makes the size of a live chunk another one, up to its room. It needs no memory.
    #[inline]
    pub fn set_size(&mut self, at: Addr, size: u32)
        requires { (c : Chunk) × (chunk_at self.old at ≡ Some c) × (size ≤ c.room) }
        ensures same { SameContext self.old self.new }
        ensures last { self.new.last_number ≡ self.old.last_number }
        ensures chunk { (c : Chunk) → chunk_at self.old at ≡ Some c → PutsChunk self.old self.new at (Some (record c { size = size })) }
        ensures blocks { self.new.blocks ≡ self.old.blocks }
        ensures moves { MovesStill self.old self.new }
    {
        self.books.set_size(at, size);
    }

    /// Forgets a live chunk, and answers its block as it was.
    #[inline]
    pub fn remove(&mut self, at: Addr) -> Block
        requires { (c : Chunk) × (chunk_at self.old at ≡ Some c) }
        ensures same { SameContext self.old self.new }
        ensures last { self.new.last_number ≡ self.old.last_number }
        ensures was { block_at self.old at.region ≡ Some result }
        ensures chunk { PutsChunk self.old self.new at None }
        ensures block { (b : Block) → block_at self.old at.region ≡ Some b → PutsBlock self.old self.new at.region (record b { live = b.live - 1; freed = b.freed + 1 }) }
        ensures moves { MovesStill self.old self.new }
    {
        self.books.remove(at)
    }

    /// Gives a block without live chunks its whole room.
    pub fn refill(&mut self, number: u32)
        requires { (b : Block) × (block_at self.old number ≡ Some b) × (b.live ≡ 0) }
        ensures same { SameContext self.old self.new }
        ensures last { self.new.last_number ≡ self.old.last_number }
        ensures chunks { self.new.chunks ≡ self.old.chunks }
        ensures block { (b : Block) → block_at self.old number ≡ Some b → PutsBlock self.old self.new number (whole_block b.number (start_of self.old number) b.size) }
        ensures moves { MovesStill self.old self.new }
    {
        self.books.refill(number);
    }

    /// Gives a block without live chunks, which isn't the keeper, back to the space.
    pub fn give(&mut self, space: &mut Space, number: u32)
        requires agrees { Agrees (footprint self.old) space.old }
        requires block { (b : Block) × (block_at self.old number ≡ Some b) × (b.live ≡ 0) }
        requires not_keeper { number ≢ self.old.keeper }
        ensures same { SameContext self.old self.new }
        ensures last { self.new.last_number ≡ self.old.last_number }
        ensures chunks { self.new.chunks ≡ self.old.chunks }
        ensures block { DropsBlock self.old self.new number }
        ensures total { (b : Block) → block_at self.old number ≡ Some b → total self.new + b.size ≡ total self.old }
        ensures moves { Moves (footprint self.old) (footprint self.new) space.old space.new }
        ensures keeps { Keeps (footprint self.old) (footprint self.new) space.old space.new }
        ensures asked { space.new.taken ≡ space.old.taken }
    {
        self.books.give(space, number);
    }

    /// Forgets all chunks, gives every block but the keeper back, and gives the keeper its whole room. Blocks are
    /// counted anew.
    pub fn reset(&mut self, space: &mut Space)
        requires { Agrees (footprint self.old) space.old }
        ensures same { SameContext self.old self.new }
        ensures last { self.new.last_number ≡ self.old.first_number }
        ensures chunks { self.new.chunks ≡ [] }
        ensures blocks { (b : Block) → block_at self.old self.old.keeper ≡ Some b → self.new.blocks ≡ keeper_alone self.old.keeper self.old.first_number b.size }
        ensures moves { Moves (footprint self.old) (footprint self.new) space.old space.new }
        ensures asked { space.new.taken ≡ space.old.taken }
    {
        self.books.reset(space);
    }

    /// Gives all blocks back.
    pub fn discard(self, space: &mut Space)
        requires { Agrees (footprint self) space.old }
        ensures moves { Moves (footprint self) (nothing self.account self.context) space.old space.new }
        ensures asked { space.new.taken ≡ space.old.taken }
    {
        let Blocks { books } = self;
        books.discard(space);
    }

    /// Copies the first `n` bytes, which are known, of a live chunk into another one.
    #[inline]
    pub fn carry(&self, space: &mut Space, from: Addr, to: Addr, n: u32)
        requires agrees { Agrees (footprint self.now) space.old }
        requires from { (c : Chunk) × (chunk_at self.now from ≡ Some c) × (n ≤ c.size) }
        requires to { (c : Chunk) × (chunk_at self.now to ≡ Some c) × (n ≤ c.size) }
        requires other { from ≢ to }
        requires known { IsKnown space.old from n }
        ensures moves { Moves (footprint self.now) (footprint self.now) space.old space.new }
        ensures keeps { KeepsBut to (footprint self.now) (footprint self.now) space.old space.new }
        ensures copied { HasBytesOf space.old space.new from to n }
        ensures asked { space.new.taken ≡ space.old.taken }
    {
        self.books.carry(space, from, to, n);
    }

    /// The block in a region, if it is the context's.
    #[inline]
    pub fn block(&self, number: u32) -> Option<Block>
        ensures { result ≡ block_at self.now number }
    {
        self.books.block(number)
    }

    /// What the header of a live chunk says, of a Slab or a Generation: whether it has its block for itself, and else
    /// the bytes that it may have.
    #[inline]
    pub fn header(&self, space: &Space, at: Addr) -> Header
        requires agrees { Agrees (footprint self.now) space.now }
        requires kind { (self.now.kind ≡ Slab) ⊎ (self.now.kind ≡ Generation) }
        requires chunk { (c : Chunk) × (chunk_at self.now at ≡ Some c) }
        ensures { (c : Chunk) → chunk_at self.now at ≡ Some c → result ≡ header_of self.now.kind c (at.offset - CHUNK_HEADER - start_of self.now at.region) }
    {
        self.books.header(space, at)
    }

    /// The bytes of all blocks together.
    #[inline]
    pub fn total(&self) -> u64
        ensures total { result ≡ total self.now }
        ensures most { result ≤ 2 ^ 62 }
    {
        self.books.total
    }

    /// The number of the first block's region.
    #[inline]
    pub fn keeper(&self) -> u32
        ensures { result ≡ self.now.keeper }
    {
        self.books.keeper
    }

    /// The account that the blocks count for.
    #[inline]
    pub fn account(&self) -> u8
        ensures { result ≡ self.now.account }
    {
        self.books.account
    }

    /// How many blocks there are.
    #[inline]
    pub fn len(&self) -> usize
        ensures { result ≡ length self.now.blocks }
    {
        self.books.len()
    }

    /// The rooms of all blocks together, in bytes.
    pub fn rooms(&self) -> u64
        ensures { result ≡ rooms self.now }
    {
        self.books.rooms()
    }

    /// How many chunks were freed in all blocks since each last had its whole room, but for those that were placed again.
    pub fn freed(&self) -> u64
        ensures { result ≡ all_freed self.now }
    {
        self.books.freed()
    }

    /// Each live chunk of a Slab or a Generation has a header that leads to its block, and so to the context, and says
    /// what the chunk takes. A caller cites the clauses.
    pub fn headed(&self)
        requires { (self.now.kind ≡ Slab) ⊎ (self.now.kind ≡ Generation) }
        ensures headed { AllHeaded (footprint self.now) }
        ensures kind { AllOfKind self.now.kind (footprint self.now) }

        // What a chunk takes: one with its block for itself takes all of that but its header.
        ensures shared { (at : Addr) (chunk : Chunk) → chunk_at self.now at ≡ Some chunk → chunk.own ≡ false → TakesSpace (footprint self.now) at (chunk.room + CHUNK_HEADER) }
        ensures own { (at : Addr) (chunk : Chunk) (block : Block) → chunk_at self.now at ≡ Some chunk → chunk.own ≡ true → block_at self.now at.region ≡ Some block → TakesSpace (footprint self.now) at (block.size - BLOCK_HEADER) }
    {
        let _ = &self.books;
    }

    /// Where blocks and chunks are. A caller cites the clauses.
    pub fn laid(&self)
        ensures first { IsFirst self.now.keeper self.now.first_number self.now.blocks }

        // Blocks are numbered as they were taken, and no two have one number.
        ensures rising { AreRising self.now.first_number self.now.last_number self.now.blocks }
        ensures numbers { (a b : ℕ) (first second : Block) → block_at self.now a ≡ Some first → block_at self.now b ≡ Some second → first.number ≡ second.number → a ≡ b }

        ensures filled { (number : ℕ) (block : Block) → block_at self.now number ≡ Some block → IsFilled (whole_of self.now number block.size) block }
        ensures placed { (at : Addr) (chunk : Chunk) → chunk_at self.now at ≡ Some chunk → IsPlaced self.now at chunk }
        ensures apart { (a b : Addr) (first second : Chunk) → chunk_at self.now a ≡ Some first → chunk_at self.now b ≡ Some second → a ≢ b → IsClear (header_room self.now) a first b second }

        // A block that counts no live chunk has none, and one with a chunk counts some.
        ensures empty { (number : ℕ) (block : Block) (at : Addr) → block_at self.now number ≡ Some block → block.live ≡ 0 → at.region ≡ number → chunk_at self.now at ≡ None }
        ensures some { (at : Addr) (chunk : Chunk) (block : Block) → chunk_at self.now at ≡ Some chunk → block_at self.now at.region ≡ Some block → 1 ≤ block.live }
    {
        let _ = &self.books;
    }
}
