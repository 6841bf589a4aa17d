//! The books of the blocks: where each is, and the live chunks in them.
ghost use Rattle.std.specs.Prelude.{◌≡◌, ◌≢◌, ℕ, ◌+◌, ◌-◌, ◌*◌, ◌%◌, ◌^◌, ◌<◌, ◌≤◌, ◌↔◌, ◌⊎◌, ◌==◌, Ok, Err, Some, None, IfOk, IfErr, OnOk, OnErr, if◌then◌else◌, length, [], ◌∷◌, ◌++◌, take, true, false, map, slice_get, IsTrue, IfSome, IfNone, nat_eq};
ghost use Rattle.std.specs.Map.{lookup};
ghost use Rattle.indexmap.specs.IndexMap.{spare, IsUnique};
ghost use Rattle.addr_space.specs.declared.Addr.{Addr};
ghost use Rattle.addr_space.specs.Space.{Space, Asks, accounts, held, region_at, overwritten, IsKnown, Changes};
ghost use Rattle.addr_space.specs.Footprint.{Agrees, Moves, Keeps, KeepsBut, nothing};
ghost use Rattle.chunk_header.specs.declared.Kind.TheVariants.{Slab, Generation};
ghost use Rattle.chunk_header.specs.Header.{header_bytes};
ghost use Rattle.ctx_blocks.specs.declared.parts.Block.{Block};
ghost use Rattle.ctx_blocks.specs.declared.parts.Chunk.{Chunk};
ghost use Rattle.addr_space.specs.Live.{HasBytesOf};
ghost use Rattle.ctx_blocks.specs.Layout.{Layout, block_at, chunk_at, total, rooms, all_freed, start_of, header_room, gap_of, whole_of, header_of, footprint, keeper_alone, whole_block};
ghost use Rattle.ctx_blocks.specs.Steps.{with_block, without_block, PutsBlock, DropsBlock, PutsChunk, SameContext, MovesStill};
ghost use Rattle.chunk_header.specs.declared.TheConstants.{OWN_HEADERS};

use crate::chunks::{self, Chunks};
use crate::parts::{Block, Chunk};
use addr_space::{Addr, Space};
use chunk_header::{
    BLOCK_HEADER, CHUNK_HEADER, CONTEXT_BYTES, CtxError, Header, KEEPER_HEADERS, Kind,
    block_header, header_at,
};
use indexmap::IndexMap;
use std::alloc::Global;

/// All that the blocks of a context keep.
#[derive(Drop)]
pub struct Books {
    pub kind: Kind,
    pub account: u8,
    pub context: u32,
    // The region of the first block.
    pub keeper: u32,
    // The numbers of the first block, and of the one that was taken last.
    pub first_number: u64,
    pub last_number: u64,
    // The blocks, the keeper first. Another one that goes leaves its place to the last one, so that none else moves.
    pub blocks: IndexMap<u32, Block>,
    // The places among them of the blocks that got a chunk last and that lost one last, which are looked at first.
    pub gained: usize,
    pub lost: usize,
    // The live chunks, which the clauses alone tell.
    pub chunks: Chunks,
    // The bytes of all regions.
    pub total: u64,
}

// The greatest total with which a context takes one more block, in bytes.
const MOST: u64 = 1 << 61;

// Notes a block for which room was made, or that stands already.
fn note(blocks: &mut IndexMap<u32, Block>, number: u32, block: Block)
    requires { (lookup (λ n. number == n) blocks.old.entries ≡ None) → 0 < spare blocks.old }
    ensures blocks { blocks.new.entries ≡ with_block blocks.old.entries number block }
    ensures at { (other : ℕ) → lookup (λ n. other == n) blocks.new.entries ≡ (if number == other then Some block else lookup (λ n. other == n) blocks.old.entries) }
    ensures apart { IsUnique nat_eq blocks.new }
{
    match blocks.insert(number, block) {
        Ok(_) => {}
        Err(_) => unreachable!(),
    }
}

// Makes the block of a region, which stands at a place, another one.
#[inline]
fn change(blocks: &mut IndexMap<u32, Block>, place: usize, number: u32, block: Block)
    requires { (b : Block) × (slice_get blocks.old.entries place ≡ Some (number, b)) }
    ensures blocks { blocks.new.entries ≡ with_block blocks.old.entries number block }
    ensures at { (other : ℕ) → lookup (λ n. other == n) blocks.new.entries ≡ (if number == other then Some block else lookup (λ n. other == n) blocks.old.entries) }
    ensures apart { IsUnique nat_eq blocks.new }
{
    match blocks.get_index_mut(place) {
        Some(slot) => *slot = block,
        None => unreachable!(),
    }
}

impl Books {
    ghost use Rattle.ctx_blocks.specs.Kept.{layout_of, IsFilled, IsSized, IsClear, IsLaid, IsCounted, IsFirst, AreRising, IsKept};
    ghost use Rattle.ctx_blocks.specs.Held.{Holds, IsWritten};

    // The books of a context that is to come, as if its first region were 0.
    pub fn unplaced(alloc: Global, kind: Kind) -> Result<Books, CtxError>
        ensures kept { IfOk result IsKept }
        ensures kind { IfOk result (λ b. b.kind ≡ kind) }
        ensures only_memory { IfErr result (λ e. e ≡ CtxError.Memory) }
    {
        let mut blocks = match IndexMap::with_capacity(alloc, 1) {
            Ok(blocks) => blocks,
            Err(_) => return Err(CtxError::Memory),
        };
        let block = Block {
            number: 0,
            size: CONTEXT_BYTES,
            room: 0,
            live: 0,
            freed: 0,
        };
        note(&mut blocks, 0, block);
        Ok(Books {
            kind,
            account: 0,
            context: 0,
            keeper: 0,
            first_number: 0,
            last_number: 0,
            blocks,
            gained: 0,
            lost: 0,
            chunks: Chunks::none(),
            total: u64::from(CONTEXT_BYTES),
        })
    }

    // The books of a new context, whose first region was taken.
    pub fn create(
        alloc: Global,
        space: &mut Space,
        kind: Kind,
        account: u8,
        context: u32,
        first: u64,
        size: u32,
    ) -> Result<Books, CtxError>
        requires account { account < accounts space.old }
        requires least { CONTEXT_BYTES ≤ size }
        requires most { size ≤ 2 ^ 23 }
        requires whole { size % 8 ≡ 0 }
        requires roomy { (size ≡ CONTEXT_BYTES) ⊎ (KEEPER_HEADERS ≤ size) }
        ensures kept { IfOk result IsKept }
        ensures kind { IfOk result (λ b. b.kind ≡ kind) }
        ensures account { IfOk result (λ b. b.account ≡ account) }
        ensures context { IfOk result (λ b. b.context ≡ context) }
        ensures first { IfOk result (λ b. b.first_number ≡ first) }
        ensures last { IfOk result (λ b. b.last_number ≡ first) }
        ensures blocks { IfOk result (λ b. (layout_of b).blocks ≡ keeper_alone b.keeper first size) }
        ensures chunks { IfOk result (λ b. (layout_of b).chunks ≡ []) }
        ensures moves { IfOk result (λ b. Moves (nothing account context) (footprint (layout_of b)) space.old space.new) }
        ensures asked { OnOk result (Asks account size space.old space.new) }
        ensures no_space { (result ≡ Err CtxError.NoSpace) ↔ (space.old.limit < held space.old account + size) }
        ensures no_other { IfErr result (λ e. (e ≡ CtxError.NoSpace) ⊎ (e ≡ CtxError.Memory)) }
        ensures err { OnErr result (space.new ≡ space.old) }
    {
        if !space.fits(account, size) {
            return Err(CtxError::NoSpace);
        }
        let mut blocks = match IndexMap::with_capacity(alloc, 1) {
            Ok(blocks) => blocks,
            Err(_) => return Err(CtxError::Memory),
        };
        let at = space.take(account, size)?;
        let keeper = at.region;
        if size >= KEEPER_HEADERS {
            let place = Addr {
                region: keeper,
                offset: CONTEXT_BYTES,
            };
            space.write(place, &block_header(context, size));
        }
        let block = Block {
            number: first,
            size,
            room: size.saturating_sub(KEEPER_HEADERS),
            live: 0,
            freed: 0,
        };
        note(&mut blocks, keeper, block);
        Ok(Books {
            kind,
            account,
            context,
            keeper,
            first_number: first,
            last_number: first,
            blocks,
            gained: 0,
            lost: 0,
            chunks: Chunks::none(),
            total: u64::from(size),
        })
    }

    // How many bytes of a region stand before the header of its block.
    #[inline]
    fn start(&self, number: u32) -> u32
        ensures { result ≡ start_of (layout_of self.now) number }
    {
        if self.keeper == number {
            CONTEXT_BYTES
        } else {
            0
        }
    }

    // The bytes of the header of a chunk.
    #[inline]
    fn gap(&self) -> u32
        ensures { result ≡ header_room (layout_of self.now) }
    {
        match self.kind {
            Kind::Bump => 0,
            _ => CHUNK_HEADER,
        }
    }

    // The room that a block of so many bytes has while it is empty.
    #[inline]
    fn whole(&self, number: u32, size: u32) -> u32
        ensures { result ≡ whole_of (layout_of self.now) number size }
    {
        size.saturating_sub(self.start(number))
            .saturating_sub(BLOCK_HEADER)
    }

    // Whether the block of a region stands at a place.
    #[inline]
    fn is_at(&self, place: usize, number: u32) -> bool
        requires { IsUnique nat_eq self.now.blocks }
        ensures { IsTrue result → (b : Block) × (slice_get self.now.blocks.entries place ≡ Some (number, b)) × (block_at (layout_of self.now) number ≡ Some b) }
    {
        match self.blocks.get_index(place) {
            Some((other, _)) => *other == number,
            None => false,
        }
    }

    // The place of the block in a region among the blocks, if there is one.
    #[inline]
    #[tactic(auto, using(crate::proofs::Viewed::block_view))]
    fn find(&self, number: u32) -> Option<usize>
        requires { IsUnique nat_eq self.now.blocks }
        ensures some { IfSome result (λ place. (b : Block) × (slice_get self.now.blocks.entries place ≡ Some (number, b)) × (block_at (layout_of self.now) number ≡ Some b)) }
        ensures none { IfNone result (block_at (layout_of self.now) number ≡ None) }
    {
        if self.is_at(self.gained, number) {
            return Some(self.gained);
        }
        if self.is_at(self.lost, number) {
            return Some(self.lost);
        }
        match self.blocks.get_full(&number) {
            Some((place, _, _)) => Some(place),
            None => None,
        }
    }

    // The block in a region, if it is the context's.
    #[inline]
    pub fn block(&self, number: u32) -> Option<Block>
        requires { IsUnique nat_eq self.now.blocks }
        ensures { result ≡ block_at (layout_of self.now) number }
    {
        let place = self.find(number)?;
        Some(self.at(place).1)
    }

    // The place of the block in a region of the context.
    #[inline]
    fn seek(&self, number: u32) -> usize
        requires apart { IsUnique nat_eq self.now.blocks }
        requires block { (b : Block) × (block_at (layout_of self.now) number ≡ Some b) }
        ensures { (b : Block) × (slice_get self.now.blocks.entries result ≡ Some (number, b)) × (block_at (layout_of self.now) number ≡ Some b) }
    {
        match self.find(number) {
            Some(place) => place,
            None => unreachable!(),
        }
    }

    // The block in a region, which stands at a place.
    #[inline]
    fn owned(&self, place: usize, number: u32) -> Block
        requires apart { IsUnique nat_eq self.now.blocks }
        requires place { (b : Block) × (slice_get self.now.blocks.entries place ≡ Some (number, b)) × (block_at (layout_of self.now) number ≡ Some b) }
        ensures { block_at (layout_of self.now) number ≡ Some result }
    {
        self.at(place).1
    }

    // What the header of a live chunk says.
    #[inline]
    pub fn header(&self, space: &Space, at: Addr) -> Header
        requires laid { IsLaid (layout_of self.now) }
        requires agrees { Agrees (footprint (layout_of self.now)) space.now }
        requires kind { (self.now.kind ≡ Slab) ⊎ (self.now.kind ≡ Generation) }
        requires chunk { (c : Chunk) × (chunk_at (layout_of self.now) at ≡ Some c) }
        ensures { (c : Chunk) → chunk_at (layout_of self.now) at ≡ Some c → result ≡ header_of self.now.kind c (at.offset - CHUNK_HEADER - start_of (layout_of self.now) at.region) }
    {
        let _ = &self.blocks;
        header_at(space, at)
    }

    // Makes room in the map for one block.
    fn make_room(&mut self) -> Result<(), CtxError>
        requires { IsKept self.old }
        ensures kept { IsKept self.new }
        ensures same { layout_of self.new ≡ layout_of self.old }
        ensures spare { OnOk result (1 ≤ spare self.new.blocks) }
        ensures only_memory { IfErr result (λ e. e ≡ CtxError.Memory) }
    {
        if self.blocks.reserve(1).is_err() {
            return Err(CtxError::Memory);
        }
        Ok(())
    }

    // Takes a block, the last one from now on, makes room for it and writes its header.
    pub fn add(&mut self, space: &mut Space, size: u32) -> Result<u32, CtxError>
        requires kept { IsKept self.old }
        requires agrees { Agrees (footprint (layout_of self.old)) space.old }
        requires least { OWN_HEADERS ≤ size }
        requires most { size ≤ 2 ^ 31 }
        requires whole { size % 8 ≡ 0 }
        ensures kept { IsKept self.new }
        ensures same { OnOk result (SameContext (layout_of self.old) (layout_of self.new)) }
        ensures fresh { IfOk result (λ number. block_at (layout_of self.old) number ≡ None) }
        ensures block { IfOk result (λ number. PutsBlock (layout_of self.old) (layout_of self.new) number (record { number = (layout_of self.old).last_number + 1; size = size; room = size - BLOCK_HEADER; live = 0; freed = 0 })) }
        ensures chunks { OnOk result ((layout_of self.new).chunks ≡ (layout_of self.old).chunks) }
        ensures last { OnOk result ((layout_of self.new).last_number ≡ (layout_of self.old).last_number + 1) }
        ensures total { OnOk result (total (layout_of self.new) ≡ total (layout_of self.old) + size) }
        ensures moves { Moves (footprint (layout_of self.old)) (footprint (layout_of self.new)) space.old space.new }
        ensures keeps { Keeps (footprint (layout_of self.old)) (footprint (layout_of self.new)) space.old space.new }
        ensures asked { OnOk result (Asks (layout_of self.old).account size space.old space.new) }
        ensures fits { OnOk result (size ≤ space.old.limit - held space.old (layout_of self.old).account) }
        ensures no_space { (result ≡ Err CtxError.NoSpace) → space.old.limit - held space.old (layout_of self.old).account < size }
        ensures no_other { IfErr result (λ e. (e ≡ CtxError.NoSpace) ⊎ (e ≡ CtxError.Memory)) }
        ensures err { OnErr result (layout_of self.new ≡ layout_of self.old) }
        ensures err_space { OnErr result (space.new ≡ space.old) }
    {
        self.make_room()?;
        self.take(space, size)
    }

    // Takes a block for which there is room, the last one from now on, and writes its header.
    fn take(&mut self, space: &mut Space, size: u32) -> Result<u32, CtxError>
        requires kept { IsKept self.old }
        requires agrees { Agrees (footprint (layout_of self.old)) space.old }
        requires least { OWN_HEADERS ≤ size }
        requires most { size ≤ 2 ^ 31 }
        requires whole { size % 8 ≡ 0 }
        requires spare { 1 ≤ spare self.old.blocks }
        ensures kept { IsKept self.new }
        ensures same { OnOk result (SameContext (layout_of self.old) (layout_of self.new)) }
        ensures fresh { IfOk result (λ number. block_at (layout_of self.old) number ≡ None) }
        ensures block { IfOk result (λ number. PutsBlock (layout_of self.old) (layout_of self.new) number (record { number = self.old.last_number + 1; size = size; room = size - BLOCK_HEADER; live = 0; freed = 0 })) }
        ensures chunks { OnOk result (self.new.chunks ≡ self.old.chunks) }
        ensures last { OnOk result (self.new.last_number ≡ self.old.last_number + 1) }
        ensures total { OnOk result (total (layout_of self.new) ≡ total (layout_of self.old) + size) }
        ensures moves { Moves (footprint (layout_of self.old)) (footprint (layout_of self.new)) space.old space.new }
        ensures keeps { Keeps (footprint (layout_of self.old)) (footprint (layout_of self.new)) space.old space.new }
        ensures asked { OnOk result (Asks self.old.account size space.old space.new) }
        ensures fits { OnOk result (size ≤ space.old.limit - held space.old self.old.account) }
        ensures no_space { (result ≡ Err CtxError.NoSpace) → space.old.limit - held space.old self.old.account < size }
        ensures no_other { IfErr result (λ e. (e ≡ CtxError.NoSpace) ⊎ (e ≡ CtxError.Memory)) }
        ensures err { OnErr result (self.new ≡ self.old) }
        ensures err_space { OnErr result (space.new ≡ space.old) }
    {
        if self.total > MOST || self.last_number == u64::MAX {
            return Err(CtxError::Memory);
        }
        let at = space.take(self.account, size)?;
        space.write(at, &block_header(self.context, size));
        let block = Block {
            number: self.last_number + 1,
            size,
            room: size - BLOCK_HEADER,
            live: 0,
            freed: 0,
        };
        note(&mut self.blocks, at.region, block);
        self.last_number += 1;
        self.total += u64::from(size);
        Ok(at.region)
    }

    // Writes the header of a chunk, where its kind has one.
    #[inline]
    fn head(&self, space: &mut Space, at: Addr, chunk: Chunk)
        requires { IsWritten (layout_of self.now) space.old at chunk }
        ensures none { header_room (layout_of self.now) ≡ 0 → space.new ≡ space.old }
        ensures asked { space.new.taken ≡ space.old.taken }
        ensures some { header_room (layout_of self.now) ≡ CHUNK_HEADER → Changes space.old space.new at.region (overwritten (region_at space.old at.region) (at.offset - CHUNK_HEADER) (map Some (header_bytes (header_of self.now.kind chunk (at.offset - CHUNK_HEADER - start_of (layout_of self.now) at.region))))) }
    {
        if self.gap() == 0 {
            return;
        }
        let offset = at.offset - CHUNK_HEADER;
        let header = Header {
            kind: self.kind,
            own: chunk.own,
            value: if chunk.own { 0 } else { chunk.room },
            dist: offset - self.start(at.region),
        };
        let place = Addr {
            region: at.region,
            offset,
        };
        space.write(place, &header.bytes());
    }

    // Notes a live chunk in the block at a place, which becomes another one, and writes its header.
    #[inline]
    fn hold(&mut self, space: &mut Space, place: usize, at: Addr, chunk: Chunk, block: Block)
        requires kept { IsKept self.old }
        requires agrees { Agrees (footprint (layout_of self.old)) space.old }
        requires holds { Holds (layout_of self.old) at chunk block }
        requires place { (b : Block) × (slice_get self.old.blocks.entries place ≡ Some (at.region, b)) × (block_at (layout_of self.old) at.region ≡ Some b) }
        ensures kept { IsKept self.new }
        ensures same { SameContext (layout_of self.old) (layout_of self.new) }
        ensures last { self.new.last_number ≡ self.old.last_number }
        ensures fresh { chunk_at (layout_of self.old) at ≡ None }
        ensures chunk { PutsChunk (layout_of self.old) (layout_of self.new) at (Some chunk) }
        ensures block { PutsBlock (layout_of self.old) (layout_of self.new) at.region block }
        ensures moves { Moves (footprint (layout_of self.old)) (footprint (layout_of self.new)) space.old space.new }
        ensures keeps { Keeps (footprint (layout_of self.old)) (footprint (layout_of self.new)) space.old space.new }
        ensures asked { space.new.taken ≡ space.old.taken }
    {
        self.head(space, at, chunk);
        self.gained = place;
        chunks::put(&mut self.chunks, at, chunk);
        change(&mut self.blocks, place, at.region, block);
    }

    // Cuts a live chunk off the room of a block.
    #[inline]
    pub fn cut(&mut self, space: &mut Space, number: u32, size: u32, room: u32, own: bool) -> Addr
        requires kept { IsKept self.old }
        requires agrees { Agrees (footprint (layout_of self.old)) space.old }
        requires block { (b : Block) × (block_at (layout_of self.old) number ≡ Some b) × (header_room (layout_of self.old) + room ≤ b.room) }
        requires some { 0 < header_room (layout_of self.old) + room }
        requires fits { size ≤ room }
        requires whole { room % 8 ≡ 0 }
        requires value { (own ≡ true) ⊎ (room < 2 ^ 30) }
        ensures kept { IsKept self.new }
        ensures same { SameContext (layout_of self.old) (layout_of self.new) }
        ensures last { self.new.last_number ≡ self.old.last_number }
        ensures region { result.region ≡ number }
        ensures offset { (b : Block) → block_at (layout_of self.old) number ≡ Some b → result.offset ≡ b.size - b.room + header_room (layout_of self.old) }
        ensures fresh { chunk_at (layout_of self.old) result ≡ None }
        ensures chunk { PutsChunk (layout_of self.old) (layout_of self.new) result (Some (record { size = size; room = room; own = own })) }
        ensures block { (b : Block) → block_at (layout_of self.old) number ≡ Some b → PutsBlock (layout_of self.old) (layout_of self.new) number (record b { room = b.room - (header_room (layout_of self.old) + room); live = b.live + 1 }) }
        ensures moves { Moves (footprint (layout_of self.old)) (footprint (layout_of self.new)) space.old space.new }
        ensures keeps { Keeps (footprint (layout_of self.old)) (footprint (layout_of self.new)) space.old space.new }
        ensures asked { space.new.taken ≡ space.old.taken }
    {
        let place = self.seek(number);
        let block = self.owned(place, number);
        let gap = self.gap();
        let at = Addr {
            region: number,
            offset: block.size - block.room + gap,
        };
        let less = Block {
            number: block.number,
            size: block.size,
            room: block.room - (gap + room),
            live: block.live + 1,
            freed: block.freed,
        };
        self.hold(space, place, at, Chunk { size, room, own }, less);
        at
    }

    // Puts a live chunk where a block's chunks were cut off and freed.
    #[inline]
    pub fn place(&mut self, space: &mut Space, at: Addr, size: u32, room: u32)
        requires kept { IsKept self.old }
        requires agrees { Agrees (footprint (layout_of self.old)) space.old }
        requires block { (b : Block) × (block_at (layout_of self.old) at.region ≡ Some b) × (at.offset + room + b.room ≤ b.size) × (1 ≤ b.freed) }
        requires first { start_of (layout_of self.old) at.region + BLOCK_HEADER + header_room (layout_of self.old) ≤ at.offset }
        requires whole { at.offset % 8 ≡ 0 }
        requires some { 0 < header_room (layout_of self.old) + room }
        requires fits { size ≤ room }
        requires value { room < 2 ^ 30 }
        requires clear { (other : Addr) (c : Chunk) → chunk_at (layout_of self.old) other ≡ Some c → IsClear (header_room (layout_of self.old)) other c at (record { size = size; room = room; own = false }) }
        ensures kept { IsKept self.new }
        ensures same { SameContext (layout_of self.old) (layout_of self.new) }
        ensures last { self.new.last_number ≡ self.old.last_number }
        ensures fresh { chunk_at (layout_of self.old) at ≡ None }
        ensures chunk { PutsChunk (layout_of self.old) (layout_of self.new) at (Some (record { size = size; room = room; own = false })) }
        ensures block { (b : Block) → block_at (layout_of self.old) at.region ≡ Some b → PutsBlock (layout_of self.old) (layout_of self.new) at.region (record b { live = b.live + 1; freed = b.freed - 1 }) }
        ensures moves { Moves (footprint (layout_of self.old)) (footprint (layout_of self.new)) space.old space.new }
        ensures keeps { Keeps (footprint (layout_of self.old)) (footprint (layout_of self.new)) space.old space.new }
        ensures asked { space.new.taken ≡ space.old.taken }
    {
        let place = self.seek(at.region);
        let block = self.owned(place, at.region);
        let taken = Block {
            number: block.number,
            size: block.size,
            room: block.room,
            live: block.live + 1,
            freed: block.freed - 1,
        };
        let chunk = Chunk {
            size,
            room,
            own: false,
        };
        self.hold(space, place, at, chunk, taken);
    }

    // Makes the size of a live chunk another one.
    #[inline]
    pub fn set_size(&mut self, at: Addr, size: u32)
        requires kept { IsKept self.old }
        requires chunk { (c : Chunk) × (chunk_at (layout_of self.old) at ≡ Some c) × (size ≤ c.room) }
        ensures kept { IsKept self.new }
        ensures same { SameContext (layout_of self.old) (layout_of self.new) }
        ensures last { self.new.last_number ≡ self.old.last_number }
        ensures chunk { (c : Chunk) → chunk_at (layout_of self.old) at ≡ Some c → PutsChunk (layout_of self.old) (layout_of self.new) at (Some (record c { size = size })) }
        ensures blocks { self.new.blocks ≡ self.old.blocks }
        ensures moves { MovesStill (layout_of self.old) (layout_of self.new) }
    {
        chunks::set_size(&mut self.chunks, at, size);
    }

    // Forgets a live chunk, and answers its block as it was.
    #[inline]
    pub fn remove(&mut self, at: Addr) -> Block
        requires kept { IsKept self.old }
        requires chunk { (c : Chunk) × (chunk_at (layout_of self.old) at ≡ Some c) }
        ensures kept { IsKept self.new }
        ensures same { SameContext (layout_of self.old) (layout_of self.new) }
        ensures last { self.new.last_number ≡ self.old.last_number }
        ensures was { block_at (layout_of self.old) at.region ≡ Some result }
        ensures chunk { PutsChunk (layout_of self.old) (layout_of self.new) at None }
        ensures block { (b : Block) → block_at (layout_of self.old) at.region ≡ Some b → PutsBlock (layout_of self.old) (layout_of self.new) at.region (record b { live = b.live - 1; freed = b.freed + 1 }) }
        ensures moves { MovesStill (layout_of self.old) (layout_of self.new) }
    {
        let place = self.seek(at.region);
        let block = self.owned(place, at.region);
        let less = Block {
            number: block.number,
            size: block.size,
            room: block.room,
            live: block.live - 1,
            freed: block.freed + 1,
        };
        self.lost = place;
        chunks::remove(&mut self.chunks, at);
        change(&mut self.blocks, place, at.region, less);
        block
    }

    // Gives a block without chunks its whole room.
    pub fn refill(&mut self, number: u32)
        requires kept { IsKept self.old }
        requires block { (b : Block) × (block_at (layout_of self.old) number ≡ Some b) × (b.live ≡ 0) }
        ensures kept { IsKept self.new }
        ensures same { SameContext (layout_of self.old) (layout_of self.new) }
        ensures last { self.new.last_number ≡ self.old.last_number }
        ensures chunks { self.new.chunks ≡ self.old.chunks }
        ensures block { (b : Block) → block_at (layout_of self.old) number ≡ Some b → PutsBlock (layout_of self.old) (layout_of self.new) number (whole_block b.number (start_of (layout_of self.old) number) b.size) }
        ensures moves { MovesStill (layout_of self.old) (layout_of self.new) }
    {
        let place = self.seek(number);
        let old = self.owned(place, number);
        let block = Block {
            number: old.number,
            size: old.size,
            room: self.whole(number, old.size),
            live: 0,
            freed: 0,
        };
        change(&mut self.blocks, place, number, block);
    }

    // Gives a block without chunks back.
    pub fn give(&mut self, space: &mut Space, number: u32)
        requires kept { IsKept self.old }
        requires agrees { Agrees (footprint (layout_of self.old)) space.old }
        requires block { (b : Block) × (block_at (layout_of self.old) number ≡ Some b) × (b.live ≡ 0) }
        requires not_keeper { number ≢ self.old.keeper }
        ensures kept { IsKept self.new }
        ensures same { SameContext (layout_of self.old) (layout_of self.new) }
        ensures last { self.new.last_number ≡ self.old.last_number }
        ensures chunks { self.new.chunks ≡ self.old.chunks }
        ensures block { DropsBlock (layout_of self.old) (layout_of self.new) number }
        ensures total { (b : Block) → block_at (layout_of self.old) number ≡ Some b → total (layout_of self.new) + b.size ≡ total (layout_of self.old) }
        ensures moves { Moves (footprint (layout_of self.old)) (footprint (layout_of self.new)) space.old space.new }
        ensures keeps { Keeps (footprint (layout_of self.old)) (footprint (layout_of self.new)) space.old space.new }
        ensures asked { space.new.taken ≡ space.old.taken }
    {
        let place = self.seek(number);
        let size = self.owned(place, number).size;
        let _ = self.blocks.swap_remove(&number);
        self.total -= u64::from(size);
        let at = Addr {
            region: number,
            offset: 0,
        };
        space.give(at);
    }

    // Gives the last block back, of a context without chunks.
    fn drop_last(&mut self, space: &mut Space)
        requires apart { IsUnique nat_eq self.old.blocks }
        requires laid { IsLaid (layout_of self.old) }
        requires total { self.old.total ≡ total (layout_of self.old) }
        requires agrees { Agrees (footprint (layout_of self.old)) space.old }
        requires none { (layout_of self.old).chunks ≡ [] }
        requires some { 0 < length self.old.blocks.entries }
        ensures apart { IsUnique nat_eq self.new.blocks }
        ensures laid { IsLaid (layout_of self.new) }
        ensures total { self.new.total ≡ total (layout_of self.new) }
        ensures rest { self.new ≡ record self.old { blocks = self.new.blocks; total = self.new.total } }
        ensures blocks { self.new.blocks.entries ≡ take (length self.old.blocks.entries - 1) self.old.blocks.entries }
        ensures len { length self.new.blocks.entries + 1 ≡ length self.old.blocks.entries }
        ensures moves { Moves (footprint (layout_of self.old)) (footprint (layout_of self.new)) space.old space.new }
        ensures asked { space.new.taken ≡ space.old.taken }
    {
        let Some((number, block)) = self.blocks.pop() else {
            return;
        };
        self.total -= u64::from(block.size);
        let at = Addr {
            region: number,
            offset: 0,
        };
        space.give(at);
    }

    // Forgets all chunks, and gives all blocks back, or all but the first one.
    fn shrink(&mut self, space: &mut Space, first: usize)
        requires kept { IsKept self.old }
        requires agrees { Agrees (footprint (layout_of self.old)) space.old }
        requires few { first ≤ 1 }
        ensures apart { IsUnique nat_eq self.new.blocks }
        ensures laid { IsLaid (layout_of self.new) }
        ensures total { self.new.total ≡ total (layout_of self.new) }
        ensures rest { self.new ≡ record self.old { blocks = self.new.blocks; chunks = self.new.chunks; total = self.new.total } }
        ensures blocks { self.new.blocks.entries ≡ take first self.old.blocks.entries }
        ensures chunks { self.new.chunks.entries ≡ [] }
        ensures moves { Moves (footprint (layout_of self.old)) (footprint (layout_of self.new)) space.old space.new }
        ensures asked { space.new.taken ≡ space.old.taken }
    {
        self.chunks = Chunks::none();
        while self.blocks.len() > first {
            self.drop_last(space);
        }
    }

    // Forgets all chunks, gives all blocks but the keeper back, and gives that its whole room.
    pub fn reset(&mut self, space: &mut Space)
        requires kept { IsKept self.old }
        requires agrees { Agrees (footprint (layout_of self.old)) space.old }
        ensures kept { IsKept self.new }
        ensures same { SameContext (layout_of self.old) (layout_of self.new) }
        ensures last { self.new.last_number ≡ self.old.first_number }
        ensures chunks { (layout_of self.new).chunks ≡ [] }
        ensures blocks { (b : Block) → block_at (layout_of self.old) self.old.keeper ≡ Some b → (layout_of self.new).blocks ≡ keeper_alone self.old.keeper self.old.first_number b.size }
        ensures moves { Moves (footprint (layout_of self.old)) (footprint (layout_of self.new)) space.old space.new }
        ensures asked { space.new.taken ≡ space.old.taken }
    {
        self.shrink(space, 1);
        let keeper = self.keeper;
        let place = self.seek(keeper);
        let size = self.owned(place, keeper).size;
        let block = Block {
            number: self.first_number,
            size,
            room: self.whole(keeper, size),
            live: 0,
            freed: 0,
        };
        change(&mut self.blocks, place, keeper, block);
        self.last_number = self.first_number;
    }

    // Gives all blocks back.
    pub fn discard(self, space: &mut Space)
        requires kept { IsKept self }
        requires agrees { Agrees (footprint (layout_of self)) space.old }
        ensures moves { Moves (footprint (layout_of self)) (nothing self.account self.context) space.old space.new }
        ensures asked { space.new.taken ≡ space.old.taken }
    {
        let mut books = self;
        books.shrink(space, 0);
    }

    // Copies known bytes of a live chunk into another one.
    pub fn carry(&self, space: &mut Space, from: Addr, to: Addr, n: u32)
        requires laid { IsLaid (layout_of self.now) }
        requires agrees { Agrees (footprint (layout_of self.now)) space.old }
        requires from { (c : Chunk) × (chunk_at (layout_of self.now) from ≡ Some c) × (n ≤ c.size) }
        requires to { (c : Chunk) × (chunk_at (layout_of self.now) to ≡ Some c) × (n ≤ c.size) }
        requires other { from ≢ to }
        requires known { IsKnown space.old from n }
        ensures moves { Moves (footprint (layout_of self.now)) (footprint (layout_of self.now)) space.old space.new }
        ensures keeps { KeepsBut to (footprint (layout_of self.now)) (footprint (layout_of self.now)) space.old space.new }
        ensures copied { HasBytesOf space.old space.new from to n }
        ensures asked { space.new.taken ≡ space.old.taken }
    {
        space.copy(from, to, n);
    }

    // How many blocks there are.
    #[inline]
    #[tactic(auto, using(crate::proofs::Ordered::length_in_order))]
    pub fn len(&self) -> usize
        ensures { result ≡ length (layout_of self.now).blocks }
    {
        self.blocks.len()
    }

    // The block at a place.
    #[inline]
    #[tactic(auto, using(crate::proofs::Viewed::block_view))]
    fn at(&self, place: usize) -> (u32, Block)
        requires apart { IsUnique nat_eq self.now.blocks }
        requires within { place < length self.now.blocks.entries }
        ensures entry { slice_get self.now.blocks.entries place ≡ Some result }
        ensures block { block_at (layout_of self.now) result.0 ≡ Some result.1 }
    {
        match self.blocks.get_index(place) {
            Some((number, block)) => (*number, *block),
            None => unreachable!(),
        }
    }

    // The rooms of all blocks together.
    pub fn rooms(&self) -> u64
        requires { IsKept self.now }
        ensures { result ≡ rooms (layout_of self.now) }
    {
        let mut sum = 0;
        for i in 0..self.blocks.len() {
            sum += u64::from(self.at(i).1.room);
        }
        sum
    }

    // How many chunks were freed in all blocks together.
    pub fn freed(&self) -> u64
        requires { IsKept self.now }
        ensures { result ≡ all_freed (layout_of self.now) }
    {
        let mut sum = 0;
        for i in 0..self.blocks.len() {
            sum += u64::from(self.at(i).1.freed);
        }
        sum
    }
}
