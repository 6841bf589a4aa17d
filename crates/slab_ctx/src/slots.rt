//! The chunks in the blocks of a Slab, and the offsets of the freed ones.
ghost use Rattle.std.specs.Prelude.{◌≡◌, ◌≢◌, ℕ, ◌+◌, ◌-◌, ◌*◌, ◌^◌, ◌<◌, ◌≤◌, ◌↔◌, ◌⊎◌, ◌==◌, Ok, Err, Some, None, IfOk, IfErr, OnOk, OnErr, if◌then◌else◌, length, [], ◌∷◌, slice_index, slice_set, slice_get, IsTrue};
ghost use Rattle.std.specs.Global.{Vec};
ghost use Rattle.addr_space.specs.declared.Addr.{Addr};
ghost use Rattle.indexmap.specs.IndexMap.{spare};
ghost use Rattle.ctx_blocks.specs.declared.parts.Block.{Block};
ghost use Rattle.ctx_blocks.specs.declared.parts.Chunk.{Chunk};
ghost use Rattle.ctx_blocks.specs.Layout.{block_at, chunk_at};
ghost use Rattle.slab_ctx.specs.Lives.{stride, per_block};
ghost use Rattle.slab_ctx.specs.Slots.{stack_at};

use addr_space::{Addr, Space};
use chunk_header::{BLOCK_HEADER, CHUNK_HEADER, CONTEXT_BYTES, CtxError, Kind, up8};
use ctx_blocks::{Block, Blocks};
use indexmap::IndexMap;
use std::alloc::Global;

/// The bytes of a block: PostgreSQL's `SLAB_DEFAULT_BLOCK_SIZE` (memutils.h).
pub const BLOCK_BYTES: u32 = 8192;

/// The greatest size of a Slab's chunks, in bytes.
pub const LARGEST_CHUNK: u32 = 1024;

/// The blocks, and which of their chunks were freed.
#[derive(Drop)]
pub struct Slots {
    pub blocks: Blocks,
    // The size of every chunk.
    pub size: u32,
    // For each block the offsets of its freed chunks, as many as it counts, and room for those of all its chunks.
    pub stacks: IndexMap<u32, Vec<u16>>,
    // The place among them of the one that was used last, which is looked at first.
    pub last: usize,
    pub alloc: Global,
}

// What a chunk takes in a block, with its header.
#[tactic(auto, unfolding(crate::specs::Ledger::stride))]
pub fn stride(size: u32) -> u32
    requires least { 1 ≤ size }
    requires most { size ≤ LARGEST_CHUNK }
    ensures value { result ≡ stride size }
    ensures least { 16 ≤ result }
    ensures most { result ≤ 1039 }
{
    up8(size) + CHUNK_HEADER
}

// How many chunks a block has.
#[tactic(auto, unfolding(crate::specs::Ledger::per_block))]
pub fn per_block(size: u32) -> u32
    requires least { 1 ≤ size }
    requires most { size ≤ LARGEST_CHUNK }
    ensures value { result ≡ per_block size }
    ensures most { result ≤ 509 }
{
    (BLOCK_BYTES - BLOCK_HEADER) / stride(size)
}

// Notes the stack of a new block, for which room was made.
fn open(stacks: &mut IndexMap<u32, Vec<u16>>, number: u32, stack: Vec<u16>)
    requires { 0 < spare stacks.old }
    ensures { (other : ℕ) → stack_at stacks.new.entries other ≡ (if number == other then stack.items else stack_at stacks.old.entries other) }
{
    match stacks.insert(number, stack) {
        Ok(_) => {}
        Err(_) => unreachable!(),
    }
}

// Whether the stack of a block stands at a place.
#[inline]
fn is_at(stacks: &IndexMap<u32, Vec<u16>>, place: usize, number: u32) -> bool
    ensures { IsTrue result → (stack : Vec ℕ) × (slice_get stacks.now.entries place ≡ Some (number, stack)) × (stack_at stacks.now.entries number ≡ stack.items) }
{
    match stacks.get_index(place) {
        Some((other, _)) => *other == number,
        None => false,
    }
}

// The place of a block's stack, which is looked for at another place first.
#[inline]
fn seek(stacks: &IndexMap<u32, Vec<u16>>, hint: usize, number: u32) -> usize
    requires { 0 < length (stack_at stacks.now.entries number) }
    ensures { (stack : Vec ℕ) × (slice_get stacks.now.entries result ≡ Some (number, stack)) × (stack_at stacks.now.entries number ≡ stack.items) }
{
    if is_at(stacks, hint, number) {
        return hint;
    }
    match stacks.get_full(&number) {
        Some((place, _, _)) => place,
        None => unreachable!(),
    }
}

// Writes an offset at a depth of a block's stack, which stands at a place.
#[inline]
fn push(stacks: &mut IndexMap<u32, Vec<u16>>, place: usize, number: u32, depth: u32, offset: u16)
    requires place { (stack : Vec ℕ) × (slice_get stacks.old.entries place ≡ Some (number, stack)) × (stack_at stacks.old.entries number ≡ stack.items) }
    requires depth { depth < length (stack_at stacks.old.entries number) }
    ensures { (other : ℕ) → stack_at stacks.new.entries other ≡ (if number == other then slice_set (stack_at stacks.old.entries number) depth offset else stack_at stacks.old.entries other) }
{
    match stacks.get_index_mut(place) {
        Some(stack) => stack[depth as usize] = offset,
        None => unreachable!(),
    }
}

// The offset at a depth of a block's stack, which stands at a place.
#[inline]
fn offset_at(stacks: &IndexMap<u32, Vec<u16>>, place: usize, number: u32, depth: u32) -> u16
    requires place { (stack : Vec ℕ) × (slice_get stacks.now.entries place ≡ Some (number, stack)) × (stack_at stacks.now.entries number ≡ stack.items) }
    requires depth { depth < length (stack_at stacks.now.entries number) }
    ensures { result ≡ slice_index (stack_at stacks.now.entries number) depth }
{
    match stacks.get_index(place) {
        Some((_, stack)) => stack[depth as usize],
        None => unreachable!(),
    }
}

// Forgets the stack of a block.
fn close(stacks: &mut IndexMap<u32, Vec<u16>>, number: u32)
    ensures { (other : ℕ) → other ≢ number → stack_at stacks.new.entries other ≡ stack_at stacks.old.entries other }
{
    let _ = stacks.swap_remove(&number);
}

impl Slots {
    ghost use Rattle.addr_space.specs.Space.{Space, Asks, accounts, held};
    ghost use Rattle.addr_space.specs.Footprint.{Agrees, Moves, Keeps, nothing};
    ghost use Rattle.ctx_blocks.specs.Layout.{total, footprint};
    ghost use Rattle.ctx_blocks.specs.Steps.{PutsBlock, DropsBlock, PutsChunk, SameContext, MovesStill};
    ghost use Rattle.slab_ctx.specs.Slots.{HasSlots, chunk_of, first_region};
    ghost use Rattle.slab_ctx.specs.Counts.{Counts};

    // The slots of a context that is to come.
    pub fn unplaced(alloc: Global) -> Result<Slots, CtxError>
        ensures { IfErr result (λ e. e ≡ CtxError.Memory) }
    {
        Ok(Slots {
            blocks: Blocks::unplaced(alloc, Kind::Slab)?,
            size: 1,
            stacks: IndexMap::new(alloc),
            last: 0,
            alloc,
        })
    }

    // The slots of a new context, whose first region was taken.
    #[tactic(auto, using(crate::proofs::Slotted::IsSlotted_none))]
    pub fn create(
        alloc: Global,
        space: &mut Space,
        account: u8,
        context: u32,
        size: u32,
    ) -> Result<Slots, CtxError>
        requires account { account < accounts space.old }
        requires least { 1 ≤ size }
        requires most { size ≤ LARGEST_CHUNK }
        ensures slots { IfOk result HasSlots }
        ensures size { IfOk result (λ s. s.size ≡ size) }
        ensures account { IfOk result (λ s. s.blocks.account ≡ account) }
        ensures context { IfOk result (λ s. s.blocks.context ≡ context) }
        ensures blocks { IfOk result (λ s. s.blocks.blocks ≡ (s.blocks.keeper, first_region) ∷ []) }
        ensures numbers { IfOk result (λ s. (s.blocks.first_number ≡ 0) × (s.blocks.last_number ≡ 0)) }
        ensures chunks { IfOk result (λ s. s.blocks.chunks ≡ []) }
        ensures asked { OnOk result (Asks account CONTEXT_BYTES space.old space.new) }
        ensures moves { IfOk result (λ s. Moves (nothing account context) (footprint s.blocks) space.old space.new) }
        ensures no_space { (result ≡ Err CtxError.NoSpace) ↔ (space.old.limit < held space.old account + CONTEXT_BYTES) }
        ensures no_other { IfErr result (λ e. (e ≡ CtxError.NoSpace) ⊎ (e ≡ CtxError.Memory)) }
        ensures err { OnErr result (space.new ≡ space.old) }
    {
        let blocks = Blocks::create(alloc, space, Kind::Slab, account, context, 0, CONTEXT_BYTES)?;
        Ok(Slots {
            blocks,
            size,
            stacks: IndexMap::new(alloc),
            last: 0,
            alloc,
        })
    }

    // The block in a region of the context.
    pub fn owned(&self, number: u32) -> Block
        requires { (b : Block) × (block_at self.now.blocks number ≡ Some b) }
        ensures { block_at self.now.blocks number ≡ Some result }
    {
        match self.blocks.block(number) {
            Some(block) => block,
            None => unreachable!(),
        }
    }

    // Takes a block.
    pub fn add(&mut self, space: &mut Space) -> Result<u32, CtxError>
        requires slots { HasSlots self.old }
        requires agrees { Agrees (footprint self.old.blocks) space.old }
        ensures slots { HasSlots self.new }
        ensures size { self.new.size ≡ self.old.size }
        ensures same { OnOk result (SameContext self.old.blocks self.new.blocks) }
        ensures not_keeper { IfOk result (λ number. number ≢ self.old.blocks.keeper) }
        ensures fresh { IfOk result (λ number. block_at self.old.blocks number ≡ None) }
        ensures block { IfOk result (λ number. PutsBlock self.old.blocks self.new.blocks number (record { number = self.old.blocks.last_number + 1; size = BLOCK_BYTES; room = BLOCK_BYTES - BLOCK_HEADER; live = 0; freed = 0 })) }
        ensures last { OnOk result (self.new.blocks.last_number ≡ self.old.blocks.last_number + 1) }
        ensures asked { OnOk result (Asks self.old.blocks.account BLOCK_BYTES space.old space.new) }
        ensures chunks { OnOk result (self.new.blocks.chunks ≡ self.old.blocks.chunks) }
        ensures total { OnOk result (total self.new.blocks ≡ total self.old.blocks + BLOCK_BYTES) }
        ensures most { OnOk result (total self.new.blocks ≤ 2 ^ 62) }
        ensures moves { OnOk result (Moves (footprint self.old.blocks) (footprint self.new.blocks) space.old space.new) }
        ensures keeps { OnOk result (Keeps (footprint self.old.blocks) (footprint self.new.blocks) space.old space.new) }
        ensures fits { OnOk result (BLOCK_BYTES ≤ space.old.limit - held space.old self.old.blocks.account) }
        ensures no_space { (result ≡ Err CtxError.NoSpace) → space.old.limit - held space.old self.old.blocks.account < BLOCK_BYTES }
        ensures no_other { IfErr result (λ e. (e ≡ CtxError.NoSpace) ⊎ (e ≡ CtxError.Memory)) }
        ensures err { OnErr result (self.new.blocks ≡ self.old.blocks) }
        ensures err_space { OnErr result (space.new ≡ space.old) }
    {
        if self.stacks.reserve(1).is_err() {
            return Err(CtxError::Memory);
        }
        let stack = match vec![in self.alloc; 0u16; per_block(self.size) as usize] {
            Ok(stack) => stack,
            Err(_) => return Err(CtxError::Memory),
        };
        let number = self.blocks.add(space, BLOCK_BYTES)?;
        open(&mut self.stacks, number, stack);
        let _ = self.blocks.total();
        Ok(number)
    }

    // Takes the freed chunk that is the last of a block's stack.
    #[tactic(auto, using(crate::proofs::Numbers::stride_least))]
    fn reuse(&mut self, space: &mut Space, number: u32, depth: u32) -> Addr
        requires slots { HasSlots self.old }
        requires agrees { Agrees (footprint self.old.blocks) space.old }
        requires not_keeper { number ≢ self.old.blocks.keeper }
        requires block { (b : Block) × (block_at self.old.blocks number ≡ Some b) × (b.freed ≡ depth + 1) }
        ensures slots { HasSlots self.new }
        ensures size { self.new.size ≡ self.old.size }
        ensures same { SameContext self.old.blocks self.new.blocks }
        ensures fresh { chunk_at self.old.blocks result ≡ None }
        ensures chunk { PutsChunk self.old.blocks self.new.blocks result (Some (chunk_of self.old.size)) }
        ensures block { (b : Block) → block_at self.old.blocks number ≡ Some b → Counts self.old.blocks self.new.blocks number (b.live + 1) }
        ensures last { self.new.blocks.last_number ≡ self.old.blocks.last_number }
        ensures region { result.region ≡ number }
        ensures asked { space.new.taken ≡ space.old.taken }
        ensures moves { Moves (footprint self.old.blocks) (footprint self.new.blocks) space.old space.new }
        ensures keeps { Keeps (footprint self.old.blocks) (footprint self.new.blocks) space.old space.new }
    {
        self.last = seek(&self.stacks, self.last, number);
        let at = Addr {
            region: number,
            offset: u32::from(offset_at(&self.stacks, self.last, number, depth)),
        };
        let room = stride(self.size) - CHUNK_HEADER;
        self.blocks.place(space, at, self.size, room);
        at
    }

    // Cuts a chunk off a block that has room for one.
    #[tactic(auto, using(crate::proofs::Numbers::stride_least))]
    fn cut(&mut self, space: &mut Space, number: u32) -> Addr
        requires slots { HasSlots self.old }
        requires agrees { Agrees (footprint self.old.blocks) space.old }
        requires not_keeper { number ≢ self.old.blocks.keeper }
        requires block { (b : Block) × (block_at self.old.blocks number ≡ Some b) × (stride self.old.size ≤ b.room) }
        ensures slots { HasSlots self.new }
        ensures size { self.new.size ≡ self.old.size }
        ensures same { SameContext self.old.blocks self.new.blocks }
        ensures fresh { chunk_at self.old.blocks result ≡ None }
        ensures chunk { PutsChunk self.old.blocks self.new.blocks result (Some (chunk_of self.old.size)) }
        ensures block { (b : Block) → block_at self.old.blocks number ≡ Some b → Counts self.old.blocks self.new.blocks number (b.live + 1) }
        ensures last { self.new.blocks.last_number ≡ self.old.blocks.last_number }
        ensures region { result.region ≡ number }
        ensures asked { space.new.taken ≡ space.old.taken }
        ensures moves { Moves (footprint self.old.blocks) (footprint self.new.blocks) space.old space.new }
        ensures keeps { Keeps (footprint self.old.blocks) (footprint self.new.blocks) space.old space.new }
    {
        let room = stride(self.size) - CHUNK_HEADER;
        self.blocks.cut(space, number, self.size, room, false)
    }

    // Takes a chunk of a block that has a free one.
    pub fn take(&mut self, space: &mut Space, number: u32, block: Block) -> Addr
        requires slots { HasSlots self.old }
        requires agrees { Agrees (footprint self.old.blocks) space.old }
        requires not_keeper { number ≢ self.old.blocks.keeper }
        requires block { block_at self.old.blocks number ≡ Some block }
        requires free { block.live < per_block self.old.size }
        ensures slots { HasSlots self.new }
        ensures size { self.new.size ≡ self.old.size }
        ensures same { SameContext self.old.blocks self.new.blocks }
        ensures fresh { chunk_at self.old.blocks result ≡ None }
        ensures chunk { PutsChunk self.old.blocks self.new.blocks result (Some (chunk_of self.old.size)) }
        ensures block { (b : Block) → block_at self.old.blocks number ≡ Some b → Counts self.old.blocks self.new.blocks number (b.live + 1) }
        ensures last { self.new.blocks.last_number ≡ self.old.blocks.last_number }
        ensures region { result.region ≡ number }
        ensures asked { space.new.taken ≡ space.old.taken }
        ensures moves { Moves (footprint self.old.blocks) (footprint self.new.blocks) space.old space.new }
        ensures keeps { Keeps (footprint self.old.blocks) (footprint self.new.blocks) space.old space.new }
    {
        if block.freed > 0 {
            return self.reuse(space, number, block.freed - 1);
        }
        self.cut(space, number)
    }

    // Frees a live chunk, the last of its block's stack from now on, and answers the block as it was.
    pub fn remove(&mut self, at: Addr) -> Block
        requires slots { HasSlots self.old }
        requires chunk { (c : Chunk) × (chunk_at self.old.blocks at ≡ Some c) }
        ensures slots { HasSlots self.new }
        ensures size { self.new.size ≡ self.old.size }
        ensures same { SameContext self.old.blocks self.new.blocks }
        ensures chunk { PutsChunk self.old.blocks self.new.blocks at None }
        ensures not_keeper { at.region ≢ self.old.blocks.keeper }
        ensures block { (b : Block) × (block_at self.old.blocks at.region ≡ Some b) × (1 ≤ b.live) × Counts self.old.blocks self.new.blocks at.region (b.live - 1) }
        ensures was { block_at self.old.blocks at.region ≡ Some result }
        ensures last { self.new.blocks.last_number ≡ self.old.blocks.last_number }
        ensures moves { MovesStill self.old.blocks self.new.blocks }
    {
        self.blocks.laid();
        let block = self.blocks.remove(at);
        self.last = seek(&self.stacks, self.last, at.region);
        push(
            &mut self.stacks,
            self.last,
            at.region,
            block.freed,
            at.offset as u16,
        );
        block
    }

    // Gives a block without live chunks back.
    pub fn give(&mut self, space: &mut Space, number: u32)
        requires slots { HasSlots self.old }
        requires agrees { Agrees (footprint self.old.blocks) space.old }
        requires block { (b : Block) × (block_at self.old.blocks number ≡ Some b) × (b.live ≡ 0) }
        requires not_keeper { number ≢ self.old.blocks.keeper }
        ensures slots { HasSlots self.new }
        ensures size { self.new.size ≡ self.old.size }
        ensures same { SameContext self.old.blocks self.new.blocks }
        ensures chunks { self.new.blocks.chunks ≡ self.old.blocks.chunks }
        ensures block { DropsBlock self.old.blocks self.new.blocks number }
        ensures last { self.new.blocks.last_number ≡ self.old.blocks.last_number }
        ensures asked { space.new.taken ≡ space.old.taken }
        ensures total { total self.new.blocks + BLOCK_BYTES ≡ total self.old.blocks }
        ensures moves { Moves (footprint self.old.blocks) (footprint self.new.blocks) space.old space.new }
        ensures keeps { Keeps (footprint self.old.blocks) (footprint self.new.blocks) space.old space.new }
    {
        self.blocks.give(space, number);
        close(&mut self.stacks, number);
    }

    // Gives all blocks back, but for the first region.
    pub fn reset(&mut self, space: &mut Space)
        requires slots { HasSlots self.old }
        requires agrees { Agrees (footprint self.old.blocks) space.old }
        ensures slots { HasSlots self.new }
        ensures size { self.new.size ≡ self.old.size }
        ensures same { SameContext self.old.blocks self.new.blocks }
        ensures blocks { self.new.blocks.blocks ≡ (self.new.blocks.keeper, first_region) ∷ [] }
        ensures last { self.new.blocks.last_number ≡ 0 }
        ensures asked { space.new.taken ≡ space.old.taken }
        ensures chunks { self.new.blocks.chunks ≡ [] }
        ensures moves { Moves (footprint self.old.blocks) (footprint self.new.blocks) space.old space.new }
    {
        self.blocks.reset(space);
        self.stacks.clear();
    }
}
