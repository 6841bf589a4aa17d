//! The books of an AllocSet: its blocks, chunks and numbers.
ghost use Rattle.std.specs.Prelude.{◌≡◌, ◌≢◌, ℕ, ◌+◌, ◌-◌, ◌*◌, ◌%◌, ◌^◌, ◌<◌, ◌≤◌, ◌↔◌, Ok, Err, Some, None, IfOk, IfErr, OnOk, OnErr, sum_by, if◌then◌else◌, ◌==◌, ◌⊎◌, min, IfSome, IsSome, IfNone, OnSome, slice_index, [], Option};
ghost use Rattle.std.specs.Map.{values_of, lookup};
ghost use Rattle.indexmap.specs.IndexMap.{spare};
ghost use Rattle.addr_space.specs.declared.Addr.{Addr};
ghost use Rattle.alloc_set.specs.declared.chunk.Chunk.{Chunk};
ghost use Rattle.addr_space.specs.Footprint.{Agrees, Moves, Keeps, nothing};
ghost use Rattle.alloc_set.specs.Ledger.{Class, Own as OwnPlace, class_bytes, class_size, cut_off, with_free, stats, with_own, cut_rest, cut_up, halved, block_size, reused, created, take_class, class_of, take_own, own_size, take};
ghost use Rattle.chunk_header.specs.Growth.{grown};
ghost use Rattle.addr_space.specs.Live.{PutsAt, PutsLive, SameLive};
ghost use Rattle.alloc_set.specs.Kept.{new_books, state_of, taken_bytes, IsSettled, IsShelved, IsCounted, IsKept};
ghost use Rattle.alloc_set.specs.Listed.{IsUnique};
ghost use Rattle.alloc_set.specs.State.{start_of, chunk_at, place_at, region_of, mark_of, footprint};
ghost use Rattle.addr_space.specs.Space.{Space, held, accounts, Asks};
ghost use Rattle.chunk_header.specs.declared.TheConstants.{LEAST_BLOCK, LAST_CLASS, CLASSES};
ghost use Rattle.alloc_set.specs.declared.classes.TheConstants.{LAST_SIZE};

use crate::chunk::Chunk;
use crate::chunks::{Chunks, put};
use crate::classes::{chunk_limit, class_of, class_size};
use crate::linking::{link_bytes, next_at};
use addr_space::{Addr, Space};
use chunk_header::{
    BLOCK_HEADER, CHUNK_HEADER, CONTEXT_BYTES, CtxError, FreeList, Header, Kind, LARGEST,
    OWN_HEADERS, Shelf, Shelves, Sizes, Stats, block_header, grown, up8,
};
use indexmap::IndexMap;
use std::alloc::Global;

/// The block that chunks are cut off.
#[derive(Clone, Copy)]
pub struct Block {
    pub region: u32,
    pub size: u32,
    pub room: u32,
}

/// All that an AllocSet keeps.
#[derive(Drop)]
pub struct Books {
    pub account: u8,
    pub context: u32,
    pub sizes: Sizes,
    // The greatest request that a class serves.
    pub limit: u32,
    // The size of the next block.
    pub next: u32,
    // The region of the first block.
    pub keeper: u32,
    pub active: Block,
    // The size of each other region.
    pub blocks: IndexMap<u32, u32>,
    pub chunks: Chunks,
    pub shelves: Shelves,
    // The bytes of all blocks, and how many they are.
    pub total: u64,
    pub count: u64,
    // The rooms of the blocks that are not active.
    pub idle: u64,
}

// Notes the size of a new block, for which room was made.
#[tactic(auto, using(crate::proofs::Listed::noted_sums))]
fn note(blocks: &mut IndexMap<u32, u32>, number: u32, size: u32)
    requires spare { 0 < spare blocks.old }
    requires new { lookup (λ n. number == n) blocks.old.entries ≡ None }
    ensures at { (other : ℕ) → lookup (λ n. other == n) blocks.new.entries ≡ (if number == other then Some size else lookup (λ n. other == n) blocks.old.entries) }
    ensures sums { (f : ℕ → ℕ) → sum_by f (values_of blocks.new.entries) ≡ sum_by f (values_of blocks.old.entries) + f size }
{
    match blocks.insert(number, size) {
        Ok(_) => {}
        Err(_) => unreachable!(),
    }
}

// The greatest total with which a context takes one more block, in bytes.
pub const MOST: u64 = 1 << 56;

// The size from which a block that doesn't fit is halved.
const LARGE: u32 = 1_048_576;

impl Books {
    ghost use Rattle.alloc_set.specs.Steps.{PutsChunk};
    ghost use Rattle.alloc_set.specs.Live.{LeavesLive};
    ghost use Rattle.alloc_set.specs.Cut.{CutsUp, Renews, Allocates};

    // Books that tell nothing yet.
    #[inline]
    fn blank(alloc: Global, sizes: Sizes) -> Books {
        Books {
            account: 0,
            context: 0,
            sizes,
            limit: 0,
            next: 0,
            keeper: 0,
            active: Block {
                region: 0,
                size: 0,
                room: 0,
            },
            blocks: IndexMap::new(alloc),
            chunks: Chunks::none(),
            shelves: Shelves::none(),
            total: 0,
            count: 0,
            idle: 0,
        }
    }

    // Makes them the books of a new context, as if its first block were the region 0.
    #[inline]
    fn begin(&mut self, account: u8, context: u32, sizes: Sizes)
        requires { (LEAST_BLOCK ≤ sizes.init) × (sizes.init ≤ sizes.max) }
        ensures blocks { self.new.blocks.entries ≡ [] }
        ensures chunks { self.new.chunks.entries ≡ [] }
        ensures rest { self.new ≡ new_books account context sizes 0 self.new }
    {
        self.account = account;
        self.context = context;
        self.sizes = sizes;
        self.limit = chunk_limit(sizes.max);
        self.keeper = 0;
        self.blocks.clear();
        self.total = u64::from(sizes.init);
        self.count = 1;
        self.clear();
    }

    // The same in a box, which is one that a context left where there is one.
    #[inline]
    pub fn boxed(
        alloc: Global,
        boxes: &mut FreeList<Books>,
        account: u8,
        context: u32,
        sizes: Sizes,
    ) -> Option<Box<Books>>
        requires least { LEAST_BLOCK ≤ sizes.init }
        requires order { sizes.init ≤ sizes.max }
        ensures none { IfSome result (λ b. (b.value.blocks.entries ≡ []) × (b.value.chunks.entries ≡ [])) }
        ensures rest { IfSome result (λ b. b.value ≡ new_books account context sizes 0 b.value) }
    {
        let Some(mut books) = boxes.next() else {
            let mut books = Books::blank(alloc, sizes);
            books.begin(account, context, sizes);
            return Box::new(alloc, books).ok();
        };
        books.begin(account, context, sizes);
        Some(books)
    }

    // How many bytes of a region stand before the header of its block.
    #[inline]
    fn start(&self, region: u32) -> u32
        ensures { result ≡ start_of (state_of self.now) region }
    {
        if self.keeper == region {
            CONTEXT_BYTES
        } else {
            0
        }
    }

    // Cuts a live chunk of a class off the active block.
    #[inline]
    fn carve(&mut self, space: &mut Space, class: u8, size: u32) -> Addr
        requires settled { IsSettled (state_of self.old) self.old.active.region self.old.active.size }
        requires unique { IsUnique self.old.chunks.entries }
        requires filled { (self.old.active.size - self.old.active.room) % 8 ≡ 0 }
        requires agrees { Agrees (footprint (state_of self.old)) space.old }
        requires room { class_bytes class ≤ self.old.active.room }
        requires class { class ≤ LAST_CLASS }
        requires size { size ≤ class_size class }
        ensures free { chunk_at (state_of self.old) result ≡ None }
        ensures chunk { PutsChunk (state_of self.old) (state_of self.new) result (Some (Chunk.Live class size)) }
        ensures region { result.region ≡ self.old.active.region }
        ensures room { self.new.active.room + class_bytes class ≡ self.old.active.room }
        ensures settled { IsSettled (state_of self.new) self.old.active.region self.old.active.size }
        ensures rest { self.new ≡ record self.old { chunks = self.new.chunks; active = self.new.active } }
        ensures active { self.new.active ≡ record self.old.active { room = self.new.active.room } }
        ensures sums { (f : Chunk → ℕ) → sum_by f (values_of self.new.chunks.entries) ≡ sum_by f (values_of self.old.chunks.entries) + f (Chunk.Live class size) }
        ensures unique { IsUnique self.new.chunks.entries }
        ensures moves { Moves (footprint (state_of self.old)) (footprint (state_of self.new)) space.old space.new }
        ensures keeps { Keeps (footprint (state_of self.old)) (footprint (state_of self.new)) space.old space.new }
        ensures asked { space.new.taken ≡ space.old.taken }
    {
        let region = self.active.region;
        let offset = self.active.size - self.active.room;
        let header = Header {
            kind: Kind::AllocSet,
            own: false,
            value: u32::from(class),
            dist: offset - self.start(region),
        };
        space.write(Addr { region, offset }, &header.bytes());
        let at = Addr {
            region,
            offset: offset + CHUNK_HEADER,
        };
        put(&mut self.chunks, at, Chunk::Live { class, size });
        self.active.room -= class_size(class) + CHUNK_HEADER;
        at
    }

    // The same, by what the code keeps.
    #[inline]
    pub fn cut(&mut self, space: &mut Space, class: u8, size: u32) -> Addr
        requires kept { IsKept self.old }
        requires agrees { Agrees (footprint (state_of self.old)) space.old }
        requires room { class_bytes class ≤ self.old.active.room }
        requires class { class ≤ LAST_CLASS }
        requires size { size ≤ class_size class }
        ensures kept { IsKept self.new }
        ensures ledger { (state_of self.new).ledger ≡ cut_off (state_of self.old).ledger class }
        ensures fresh { (footprint (state_of self.old)).live result ≡ None }
        ensures live { PutsLive (footprint (state_of self.old)) (footprint (state_of self.new)) result (Some size) }
        ensures stays { LeavesLive (state_of self.old) (state_of self.new) }
        ensures moves { Moves (footprint (state_of self.old)) (footprint (state_of self.new)) space.old space.new }
        ensures keeps { Keeps (footprint (state_of self.old)) (footprint (state_of self.new)) space.old space.new }
        ensures place { place_at (state_of self.new) result ≡ Some (Class class) }
        ensures chunk { PutsChunk (state_of self.old) (state_of self.new) result (Some (Chunk.Live class size)) }
        ensures region { result.region ≡ self.old.active.region }
        ensures rest { self.new ≡ record self.old { chunks = self.new.chunks; active = self.new.active } }
        ensures active { self.new.active ≡ record self.old.active { room = self.new.active.room } }
        ensures sums { sum_by taken_bytes (values_of self.new.chunks.entries) ≡ sum_by taken_bytes (values_of self.old.chunks.entries) + class_bytes class }
        ensures asked { space.new.taken ≡ space.old.taken }
    {
        self.carve(space, class, size)
    }

    // Cuts a free chunk of a class off the active block.
    #[tactic(auto, unfolding(crate::specs::Ledger::cut_off))]
    fn cut_free(&mut self, space: &mut Space, class: u8)
        requires kept { IsKept self.old }
        requires agrees { Agrees (footprint (state_of self.old)) space.old }
        requires room { class_bytes class ≤ self.old.active.room }
        requires class { class ≤ LAST_CLASS }
        ensures kept { IsKept self.new }
        ensures ledger { (state_of self.new).ledger ≡ record (state_of self.old).ledger { room = self.old.active.room - class_bytes class; free = with_free (state_of self.old).ledger.free class 1 } }
        ensures active { self.new.active ≡ record self.old.active { room = self.new.active.room } }
        ensures rest { self.new ≡ record self.old { chunks = self.new.chunks; active = self.new.active; shelves = self.new.shelves } }
        ensures sums { sum_by taken_bytes (values_of self.new.chunks.entries) ≡ sum_by taken_bytes (values_of self.old.chunks.entries) + class_bytes class }
        ensures others { (at : Addr) → at.region ≢ self.old.active.region → chunk_at (state_of self.new) at ≡ chunk_at (state_of self.old) at }
        ensures live { SameLive (footprint (state_of self.old)) (footprint (state_of self.new)) }
        ensures stays { LeavesLive (state_of self.old) (state_of self.new) }
        ensures moves { Moves (footprint (state_of self.old)) (footprint (state_of self.new)) space.old space.new }
        ensures keeps { Keeps (footprint (state_of self.old)) (footprint (state_of self.new)) space.old space.new }
        ensures asked { space.new.taken ≡ space.old.taken }
    {
        let at = self.cut(space, class, 0);
        self.shelve(space, class, at);
    }

    // What the books say.
    #[tactic(auto, using(crate::proofs::Shelved::counts))]
    pub fn stats(&self) -> Stats
        requires { IsKept self.now }
        ensures { result ≡ stats (state_of self.now).ledger }
    {
        let mut free = u64::from(self.active.room) + self.idle;
        let mut chunks = 0;
        for class in 0..11u8 {
            let count = self.shelves.at(class).count;
            free += count * (u64::from(class_size(class)) + 8);
            chunks += count;
        }
        Stats {
            total: self.total,
            blocks: self.count,
            free,
            chunks,
        }
    }

    // Makes room for the size of one more block.
    fn make_room(&mut self) -> Result<(), CtxError>
        requires { IsKept self.old }
        ensures kept { IsKept self.new }
        ensures state { state_of self.new ≡ state_of self.old }
        ensures spare { OnOk result (0 < spare self.new.blocks) }
        ensures only_memory { IfErr result (λ e. e ≡ CtxError.Memory) }
    {
        self.blocks.reserve(1)?;
        Ok(())
    }

    // Takes a block and notes it. Chunks are still cut off the old one.
    #[tactic(auto, using(crate::proofs::Shelved::counts))]
    fn add_block(&mut self, space: &mut Space, size: u32) -> Result<u32, CtxError>
        requires kept { IsKept self.old }
        requires agrees { Agrees (footprint (state_of self.old)) space.old }
        requires least { OWN_HEADERS ≤ size }
        requires most { size ≤ 2 ^ 31 }
        requires spare { 0 < spare self.old.blocks }
        ensures kept { OnOk result (IsKept self.new) }
        ensures ledger { OnOk result ((state_of self.new).ledger ≡ with_own (state_of self.old).ledger size) }
        ensures rest { OnOk result (self.new ≡ record self.old { blocks = self.new.blocks; total = self.new.total; count = self.new.count }) }
        ensures owned { IfOk result (λ number. region_of (state_of self.new) number ≡ Some size) }
        ensures new { IfOk result (λ number. region_of (state_of self.old) number ≡ None) }
        ensures moves { OnOk result (Moves (footprint (state_of self.old)) (footprint (state_of self.new)) space.old space.new) }
        ensures keeps { OnOk result (Keeps (footprint (state_of self.old)) (footprint (state_of self.new)) space.old space.new) }
        ensures asked { OnOk result (Asks self.old.account size space.old space.new) }
        ensures fits { OnOk result (size ≤ space.old.limit - held space.old self.old.account) }
        ensures no_space { (result ≡ Err CtxError.NoSpace) → space.old.limit - held space.old self.old.account < size }
        ensures no_other { IfErr result (λ e. (e ≡ CtxError.NoSpace) ⊎ (e ≡ CtxError.Memory)) }
        ensures err { OnErr result (self.new ≡ self.old) }
        ensures err_space { OnErr result (space.new ≡ space.old) }
    {
        if self.total > MOST {
            return Err(CtxError::Memory);
        }
        let at = space.take(self.account, size)?;
        space.write(at, &block_header(self.context, size));
        note(&mut self.blocks, at.region, size);
        self.total += u64::from(size);
        self.count += 1;
        Ok(at.region)
    }

    // Cuts the rest of the active block up into free chunks.
    #[tactic(auto, unfolding(crate::specs::Ledger::cut_rest, crate::specs::Ledger::cut_up))]
    fn cut_up(&mut self, space: &mut Space)
        requires kept { IsKept self.old }
        requires agrees { Agrees (footprint (state_of self.old)) space.old }
        requires little { self.old.active.room < class_bytes CLASSES }
        ensures cut { CutsUp self.old self.new }
        ensures room { self.new.active.room ≡ cut_rest CLASSES self.old.active.room }
        ensures free { (state_of self.new).ledger.free ≡ cut_up CLASSES self.old.active.room (state_of self.old).ledger.free }
        ensures moves { Moves (footprint (state_of self.old)) (footprint (state_of self.new)) space.old space.new }
        ensures keeps { Keeps (footprint (state_of self.old)) (footprint (state_of self.new)) space.old space.new }
        ensures asked { space.new.taken ≡ space.old.taken }
    {
        let mut class = 11u8;
        while class > 0 {
            class -= 1;
            if self.active.room >= class_size(class) + CHUNK_HEADER {
                self.cut_free(space, class);
            }
        }
    }

    // Makes a block without chunks the active one.
    #[tactic(auto, unfolding(crate::specs::State::mark_of))]
    fn activate(&mut self, region: u32, size: u32)
        requires kept { IsKept self.old }
        requires owned { region_of (state_of self.old) region ≡ Some size }
        requires other { region ≢ self.old.keeper }
        requires empty { (at : Addr) → at.region ≡ region → chunk_at (state_of self.old) at ≡ None }
        requires counted { self.old.active.room + self.old.idle + sum_by taken_bytes (values_of self.old.chunks.entries) + size ≤ self.old.total }
        ensures kept { IsKept self.new }
        ensures state { state_of self.new ≡ record (state_of self.old) { ledger = record (state_of self.old).ledger { next = min (2 * self.old.next) self.old.sizes.max; idle = self.old.idle + self.old.active.room; room = size - BLOCK_HEADER } } }
        ensures rest { self.new ≡ record self.old { active = self.new.active; idle = self.new.idle; next = self.new.next } }
        ensures footprint { footprint (state_of self.new) ≡ footprint (state_of self.old) }
    {
        self.idle += u64::from(self.active.room);
        self.active = Block {
            region,
            size,
            room: size - BLOCK_HEADER,
        };
        self.next = (self.next * 2).min(self.sizes.max);
    }

    // The size of a new block for a need: the next one doubled while it is below, and halved while it doesn't fit.
    fn fitted(&self, space: &Space, need: u32) -> u32
        requires kept { IsKept self.now }
        requires account { self.now.account < accounts space.now }
        requires most { need ≤ 2 ^ 14 }
        requires least { OWN_HEADERS ≤ need }
        ensures some { result ≤ space.now.limit - held space.now self.now.account → halved (space.now.limit - held space.now self.now.account) need (grown self.now.next need) ≡ Some result }
        ensures none { space.now.limit - held space.now self.now.account < result → halved (space.now.limit - held space.now self.now.account) need (grown self.now.next need) ≡ None }
        ensures enough { need ≤ result }
        ensures most { result ≤ 2 ^ 24 }
    {
        let mut size = grown(self.next, need);
        while size > LARGE && size / 2 >= need && !space.fits(self.account, size) {
            size /= 2;
        }
        size
    }

    // Takes a new block for a chunk of a class, cuts the rest of the active one up and makes the new one active.
    #[tactic(auto, unfolding(crate::specs::Ledger::block_size))]
    fn renew(&mut self, space: &mut Space, class: u8) -> Result<(), CtxError>
        requires kept { IsKept self.old }
        requires agrees { Agrees (footprint (state_of self.old)) space.old }
        requires class { class ≤ LAST_CLASS }
        requires little { self.old.active.room < class_bytes class }
        requires spare { 0 < spare self.old.blocks }
        ensures renewed { OnOk result (Renews self.old self.new space.old space.new class) }
        ensures moves { OnOk result (Moves (footprint (state_of self.old)) (footprint (state_of self.new)) space.old space.new) }
        ensures keeps { OnOk result (Keeps (footprint (state_of self.old)) (footprint (state_of self.new)) space.old space.new) }
        ensures no_space { result ≡ Err CtxError.NoSpace → block_size (state_of self.old).ledger (space.old.limit - held space.old self.old.account) class ≡ None }
        ensures no_other { IfErr result (λ e. (e ≡ CtxError.NoSpace) ⊎ (e ≡ CtxError.Memory)) }
        ensures err { OnErr result (self.new ≡ self.old) }
        ensures err_space { OnErr result (space.new ≡ space.old) }
    {
        let size = self.fitted(space, class_size(class) + OWN_HEADERS);
        let region = self.add_block(space, size)?;
        self.cut_up(space);
        self.activate(region, size);
        Ok(())
    }

    // Takes the first free chunk of a class.
    #[inline]
    fn reuse(&mut self, space: &Space, class: u8, size: u32) -> Option<Addr>
        requires kept { IsKept self.old }
        requires agrees { Agrees (footprint (state_of self.old)) space.now }
        requires class { class ≤ LAST_CLASS }
        requires size { size ≤ class_size class }
        ensures none { IfNone result (self.new ≡ self.old) }
        ensures empty { IfNone result (slice_index (state_of self.old).ledger.free class ≡ 0) }
        ensures some { OnSome result (0 < slice_index (state_of self.old).ledger.free class) }
        ensures kept { OnSome result (IsKept self.new) }
        ensures ledger { OnSome result ((state_of self.new).ledger ≡ reused (state_of self.old).ledger class) }
        ensures fresh { IfSome result (λ at. (footprint (state_of self.old)).live at ≡ None) }
        ensures live { IfSome result (λ at. PutsLive (footprint (state_of self.old)) (footprint (state_of self.new)) at (Some size)) }
        ensures place { IfSome result (λ at. place_at (state_of self.new) at ≡ Some (Class class)) }
        ensures stays { LeavesLive (state_of self.old) (state_of self.new) }
        ensures moves { OnSome result (Moves (footprint (state_of self.old)) (footprint (state_of self.new)) space.now space.now) }
    {
        let shelf = self.shelves.at(class);
        let Some(at) = shelf.first else {
            return None;
        };
        let rest = Shelf {
            first: next_at(space, at),
            count: shelf.count - 1,
        };
        self.shelves.set(class, rest);
        put(&mut self.chunks, at, Chunk::Live { class, size });
        Some(at)
    }

    // Frees a live chunk of a class: it is the first of its shelf, and its first bytes lead to the one that was.
    #[inline]
    #[tactic(auto, using(crate::proofs::Shelved::counts))]
    pub fn shelve(&mut self, space: &mut Space, class: u8, at: Addr)
        requires kept { IsKept self.old }
        requires agrees { Agrees (footprint (state_of self.old)) space.old }
        requires class { class ≤ LAST_CLASS }
        requires live { (size : ℕ) × (chunk_at (state_of self.old) at ≡ Some (Chunk.Live class size)) }
        ensures kept { IsKept self.new }
        ensures ledger { (state_of self.new).ledger ≡ record (state_of self.old).ledger { free = with_free (state_of self.old).ledger.free class 1 } }
        ensures live { PutsLive (footprint (state_of self.old)) (footprint (state_of self.new)) at None }
        ensures moves { Moves (footprint (state_of self.old)) (footprint (state_of self.new)) space.old space.new }
        ensures keeps { Keeps (footprint (state_of self.old)) (footprint (state_of self.new)) space.old space.new }
        ensures place { PutsAt (place_at (state_of self.old)) (place_at (state_of self.new)) at None }
        ensures others { (other : Addr) → other ≢ at → chunk_at (state_of self.new) other ≡ chunk_at (state_of self.old) other }
        ensures sums { sum_by taken_bytes (values_of self.new.chunks.entries) ≡ sum_by taken_bytes (values_of self.old.chunks.entries) }
        ensures rest { self.new ≡ record self.old { chunks = self.new.chunks; shelves = self.new.shelves } }
        ensures asked { space.new.taken ≡ space.old.taken }
    {
        let shelf = self.shelves.at(class);
        let next = shelf.first;
        space.write(at, &link_bytes(next));
        put(&mut self.chunks, at, Chunk::Free { class, next });
        let more = Shelf {
            first: Some(at),
            count: shelf.count + 1,
        };
        self.shelves.set(class, more);
    }

    // Serves a request by a chunk of a class.
    #[tactic(auto, unfolding(crate::specs::Ledger::take_class, crate::specs::Ledger::from_new))]
    fn take_class(&mut self, space: &mut Space, size: u32) -> Result<Addr, CtxError>
        requires kept { IsKept self.old }
        requires agrees { Agrees (footprint (state_of self.old)) space.old }
        requires size { size ≤ LAST_SIZE }
        ensures ok { IfOk result (λ at. Allocates (state_of self.old) self.new space.old space.new size at (take_class (state_of self.old).ledger (space.old.limit - held space.old self.old.account) (class_of size))) }
        ensures no_space { result ≡ Err CtxError.NoSpace → take_class (state_of self.old).ledger (space.old.limit - held space.old self.old.account) (class_of size) ≡ Err CtxError.NoSpace }
        ensures no_other { IfErr result (λ e. (e ≡ CtxError.NoSpace) ⊎ (e ≡ CtxError.Memory)) }
        ensures err_state { OnErr result (state_of self.new ≡ state_of self.old) }
        ensures err_kept { OnErr result (IsKept self.new) }
        ensures err_space { OnErr result (space.new ≡ space.old) }
    {
        let class = class_of(size);
        if let Some(at) = self.reuse(space, class, size) {
            return Ok(at);
        }
        if self.active.room >= class_size(class) + CHUNK_HEADER {
            return Ok(self.cut(space, class, size));
        }
        self.make_room()?;
        self.renew(space, class)?;
        Ok(self.cut(space, class, size))
    }

    // Notes a chunk that has a block for itself, and writes its header.
    fn settle(&mut self, space: &mut Space, region: u32, size: u32, room: u32) -> Addr
        requires kept { IsKept self.old }
        requires agrees { Agrees (footprint (state_of self.old)) space.old }
        requires owned { region_of (state_of self.old) region ≡ Some (room + OWN_HEADERS) }
        requires not_keeper { region ≢ self.old.keeper }
        requires not_active { region ≢ self.old.active.region }
        requires empty { (other : Addr) → other.region ≡ region → chunk_at (state_of self.old) other ≡ None }
        requires fits { size ≤ room }
        requires counted { self.old.active.room + self.old.idle + sum_by taken_bytes (values_of self.old.chunks.entries) + room + OWN_HEADERS ≤ self.old.total }
        ensures kept { IsKept self.new }
        ensures ledger { (state_of self.new).ledger ≡ (state_of self.old).ledger }
        ensures fresh { (footprint (state_of self.old)).live result ≡ None }
        ensures live { PutsLive (footprint (state_of self.old)) (footprint (state_of self.new)) result (Some size) }
        ensures stays { LeavesLive (state_of self.old) (state_of self.new) }
        ensures moves { Moves (footprint (state_of self.old)) (footprint (state_of self.new)) space.old space.new }
        ensures keeps { Keeps (footprint (state_of self.old)) (footprint (state_of self.new)) space.old space.new }
        ensures place { place_at (state_of self.new) result ≡ Some (OwnPlace (room + OWN_HEADERS)) }
        ensures asked { space.new.taken ≡ space.old.taken }
    {
        let header = Header {
            kind: Kind::AllocSet,
            own: true,
            value: 0,
            dist: BLOCK_HEADER,
        };
        let before = Addr {
            region,
            offset: BLOCK_HEADER,
        };
        space.write(before, &header.bytes());
        let at = Addr {
            region,
            offset: OWN_HEADERS,
        };
        put(&mut self.chunks, at, Chunk::Own { size, room });
        at
    }

    // Serves a request by a block of its own.
    #[tactic(auto, unfolding(crate::specs::Ledger::take_own, crate::specs::Ledger::with_own))]
    fn take_own(&mut self, space: &mut Space, size: u32) -> Result<Addr, CtxError>
        requires kept { IsKept self.old }
        requires agrees { Agrees (footprint (state_of self.old)) space.old }
        requires size { size ≤ LARGEST }
        ensures ok { IfOk result (λ at. Allocates (state_of self.old) self.new space.old space.new size at (take_own (state_of self.old).ledger (space.old.limit - held space.old self.old.account) (own_size size))) }
        ensures no_space { result ≡ Err CtxError.NoSpace → take_own (state_of self.old).ledger (space.old.limit - held space.old self.old.account) (own_size size) ≡ Err CtxError.NoSpace }
        ensures no_other { IfErr result (λ e. (e ≡ CtxError.NoSpace) ⊎ (e ≡ CtxError.Memory)) }
        ensures err_state { OnErr result (state_of self.new ≡ state_of self.old) }
        ensures err_kept { OnErr result (IsKept self.new) }
        ensures err_space { OnErr result (space.new ≡ space.old) }
    {
        self.make_room()?;
        let room = up8(size);
        let region = self.add_block(space, room + OWN_HEADERS)?;
        Ok(self.settle(space, region, size, room))
    }

    // Serves a request.
    #[tactic(auto, using(crate::proofs::ClassSizes::class_sizes, crate::proofs::Taken::takes))]
    pub fn alloc(&mut self, space: &mut Space, size: u64) -> Result<Addr, CtxError>
        requires kept { IsKept self.old }
        requires agrees { Agrees (footprint (state_of self.old)) space.old }
        ensures ok { IfOk result (λ at. Allocates (state_of self.old) self.new space.old space.new size at (take (state_of self.old).ledger (space.old.limit - held space.old self.old.account) size)) }
        ensures too_big { (result ≡ Err CtxError.TooBig) ↔ (LARGEST < size) }
        ensures no_space { result ≡ Err CtxError.NoSpace → take (state_of self.old).ledger (space.old.limit - held space.old self.old.account) size ≡ Err CtxError.NoSpace }
        ensures no_other { IfErr result (λ e. (e ≡ CtxError.TooBig) ⊎ ((e ≡ CtxError.NoSpace) ⊎ (e ≡ CtxError.Memory))) }
        ensures err_state { OnErr result (state_of self.new ≡ state_of self.old) }
        ensures err_kept { OnErr result (IsKept self.new) }
        ensures err_space { OnErr result (space.new ≡ space.old) }
    {
        if size > LARGEST {
            return Err(CtxError::TooBig);
        }
        if size > u64::from(self.limit) {
            return self.take_own(space, size as u32);
        }
        self.take_class(space, size as u32)
    }
}
