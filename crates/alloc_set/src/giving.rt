//! What an AllocSet gives back: chunks that are freed, and blocks.
ghost use Rattle.std.specs.Prelude.{◌≡◌, ◌≢◌, ℕ, ◌+◌, ◌-◌, ◌<◌, ◌≤◌, Some, None, IfSome, IfNone, IsSome, option_map, unwrap_or, sum_by, if◌then◌else◌, length, ◌==◌, []};
ghost use Rattle.std.specs.Map.{values_of, lookup};
ghost use Rattle.addr_space.specs.declared.Addr.{Addr};
ghost use Rattle.alloc_set.specs.declared.chunk.Chunk.{Chunk};
ghost use Rattle.addr_space.specs.Footprint.{Agrees, Moves, Keeps, nothing};
ghost use Rattle.alloc_set.specs.Ledger.{without_own, give};
ghost use Rattle.addr_space.specs.Live.{PutsAt, PutsLive, SameLive};
ghost use Rattle.alloc_set.specs.State.{chunk_at, place_at, region_of, emptied, footprint};
ghost use Rattle.addr_space.specs.Space.{Space};
ghost use Rattle.chunk_header.specs.declared.TheConstants.{LEAST_BLOCK};

use crate::books::{Block, Books};
use crate::chunk::Chunk;
use crate::chunks::{Chunks, forget};
use addr_space::{Addr, Space};
use chunk_header::{KEEPER_HEADERS, OWN_HEADERS, header_at};
use indexmap::IndexMap;

// Takes off the size of a block.
fn strike(blocks: &mut IndexMap<u32, u32>, number: u32)
    ensures at { (other : ℕ) → lookup (λ n. other == n) blocks.new.entries ≡ (if number == other then None else lookup (λ n. other == n) blocks.old.entries) }
    ensures sums { (f : ℕ → ℕ) → sum_by f (values_of blocks.new.entries) + unwrap_or (option_map f (lookup (λ n. number == n) blocks.old.entries)) 0 ≡ sum_by f (values_of blocks.old.entries) }
    ensures len { IsSome (lookup (λ n. number == n) blocks.old.entries) → length blocks.new.entries + 1 ≡ length blocks.old.entries }
{
    blocks.swap_remove(&number);
}

impl Books {
    ghost use Rattle.alloc_set.specs.Kept.{state_of, taken_bytes, IsCleared, IsKept};

    // The class of a live chunk, as its header says, or nothing where it has its block for itself.
    #[inline]
    pub fn class(&self, space: &Space, at: Addr) -> Option<u8>
        requires kept { IsKept self.now }
        requires agrees { Agrees (footprint (state_of self.now)) space.now }
        requires live { IsSome ((footprint (state_of self.now)).live at) }
        ensures class { IfSome result (λ class. (size : ℕ) × (chunk_at (state_of self.now) at ≡ Some (Chunk.Live class size))) }
        ensures own { IfNone result ((size room : ℕ) × (chunk_at (state_of self.now) at ≡ Some (Chunk.Own size room))) }
    {
        let header = header_at(space, at);
        if header.own {
            return None;
        }
        Some(header.value as u8)
    }

    // The room of a chunk that has its block for itself.
    pub fn room(&self, at: Addr) -> u32
        requires kept { IsKept self.now }
        requires own { (size room : ℕ) × (chunk_at (state_of self.now) at ≡ Some (Chunk.Own size room)) }
        ensures { (size : ℕ) × (chunk_at (state_of self.now) at ≡ Some (Chunk.Own size result)) }
    {
        match self.blocks.get(&at.region) {
            Some(size) => *size - OWN_HEADERS,
            None => unreachable!(),
        }
    }

    // Takes a chunk that has its block for itself off the books. The block is empty then.
    fn unlist(&mut self, at: Addr, room: u32)
        requires kept { IsKept self.old }
        requires own { (size : ℕ) × (chunk_at (state_of self.old) at ≡ Some (Chunk.Own size room)) }
        ensures kept { IsKept self.new }
        ensures rest { self.new ≡ record self.old { chunks = self.new.chunks } }
        ensures empty { (other : Addr) → other.region ≡ at.region → chunk_at (state_of self.new) other ≡ None }
        ensures counted { self.new.active.room + self.new.idle + sum_by taken_bytes (values_of self.new.chunks.entries) + (room + OWN_HEADERS) ≤ self.new.total }
        ensures live { PutsLive (footprint (state_of self.old)) (footprint (state_of self.new)) at None }
        ensures place { PutsAt (place_at (state_of self.old)) (place_at (state_of self.new)) at None }
        ensures moves { (sp : Space) → Agrees (footprint (state_of self.old)) sp → Moves (footprint (state_of self.old)) (footprint (state_of self.new)) sp sp }
    {
        forget(&mut self.chunks, at);
    }

    // Gives a block without chunks back.
    fn give_block(&mut self, space: &mut Space, number: u32, size: u32)
        requires kept { IsKept self.old }
        requires agrees { Agrees (footprint (state_of self.old)) space.old }
        requires owned { region_of (state_of self.old) number ≡ Some size }
        requires not_keeper { number ≢ self.old.keeper }
        requires not_active { number ≢ self.old.active.region }
        requires empty { (at : Addr) → at.region ≡ number → chunk_at (state_of self.old) at ≡ None }
        requires counted { self.old.active.room + self.old.idle + sum_by taken_bytes (values_of self.old.chunks.entries) + size ≤ self.old.total }
        ensures kept { IsKept self.new }
        ensures ledger { (state_of self.new).ledger ≡ without_own (state_of self.old).ledger size }
        ensures rest { self.new ≡ record self.old { blocks = self.new.blocks; total = self.new.total; count = self.new.count } }
        ensures len { length self.new.blocks.entries < length self.old.blocks.entries }
        ensures moves { Moves (footprint (state_of self.old)) (footprint (state_of self.new)) space.old space.new }
        ensures keeps { Keeps (footprint (state_of self.old)) (footprint (state_of self.new)) space.old space.new }
        ensures asked { space.new.taken ≡ space.old.taken }
    {
        strike(&mut self.blocks, number);
        self.total -= u64::from(size);
        self.count -= 1;
        space.give(Addr {
            region: number,
            offset: 0,
        });
    }

    // Frees a chunk that has its block for itself: the block goes back.
    fn give_own(&mut self, space: &mut Space, at: Addr, room: u32)
        requires kept { IsKept self.old }
        requires agrees { Agrees (footprint (state_of self.old)) space.old }
        requires own { (size : ℕ) × (chunk_at (state_of self.old) at ≡ Some (Chunk.Own size room)) }
        ensures kept { IsKept self.new }
        ensures ledger { (state_of self.new).ledger ≡ without_own (state_of self.old).ledger (room + OWN_HEADERS) }
        ensures live { PutsLive (footprint (state_of self.old)) (footprint (state_of self.new)) at None }
        ensures moves { Moves (footprint (state_of self.old)) (footprint (state_of self.new)) space.old space.new }
        ensures keeps { Keeps (footprint (state_of self.old)) (footprint (state_of self.new)) space.old space.new }
        ensures place { PutsAt (place_at (state_of self.old)) (place_at (state_of self.new)) at None }
        ensures asked { space.new.taken ≡ space.old.taken }
    {
        self.unlist(at, room);
        self.give_block(space, at.region, room + OWN_HEADERS);
    }

    // Frees a live chunk.
    #[tactic(auto, unfolding(crate::specs::Ledger::give))]
    pub fn free(&mut self, space: &mut Space, at: Addr)
        requires kept { IsKept self.old }
        requires agrees { Agrees (footprint (state_of self.old)) space.old }
        requires live { IsSome ((footprint (state_of self.old)).live at) }
        ensures kept { IsKept self.new }
        ensures ledger { IfSome (place_at (state_of self.old) at) (λ place. (state_of self.new).ledger ≡ give (state_of self.old).ledger place) }
        ensures place { PutsAt (place_at (state_of self.old)) (place_at (state_of self.new)) at None }
        ensures live { PutsLive (footprint (state_of self.old)) (footprint (state_of self.new)) at None }
        ensures moves { Moves (footprint (state_of self.old)) (footprint (state_of self.new)) space.old space.new }
        ensures keeps { Keeps (footprint (state_of self.old)) (footprint (state_of self.new)) space.old space.new }
        ensures asked { space.new.taken ≡ space.old.taken }
    {
        match self.class(space, at) {
            Some(class) => self.shelve(space, class, at),
            None => self.give_own(space, at, self.room(at)),
        }
    }

    // Takes all chunks off the books, and makes the keeper, with its whole room, the active block.
    #[inline]
    pub fn clear(&mut self)
        requires least { LEAST_BLOCK ≤ self.old.sizes.init }
        ensures kept { IsKept self.old → IsKept self.new }
        ensures cleared { IsCleared self.new }
        ensures rest { self.new ≡ record self.old { next = self.new.next; active = self.new.active; chunks = self.new.chunks; shelves = self.new.shelves; idle = self.new.idle } }
        ensures moves { IsKept self.old → (sp : Space) → Agrees (footprint (state_of self.old)) sp → Moves (footprint (state_of self.old)) (footprint (state_of self.new)) sp sp }
    {
        self.next = self.sizes.init;
        self.active = Block {
            region: self.keeper,
            size: self.sizes.init,
            room: self.sizes.init - KEEPER_HEADERS,
        };
        self.chunks = Chunks::none();
        self.shelves.clear();
        self.idle = 0;
    }

    // The number and the size of the last block but the keeper.
    fn last_block(&self) -> Option<(u32, u32)>
        ensures none { IfNone result (self.now.blocks.entries ≡ []) }
        ensures some { IfSome result (λ block. lookup (λ n. block.0 == n) self.now.blocks.entries ≡ Some block.1) }
    {
        let last = self.blocks.len().checked_sub(1)?;
        let (number, size) = self.blocks.get_index(last)?;
        Some((*number, *size))
    }

    // Gives all blocks but the keeper back.
    fn give_blocks(&mut self, space: &mut Space)
        requires kept { IsKept self.old }
        requires agrees { Agrees (footprint (state_of self.old)) space.old }
        requires cleared { IsCleared self.old }
        ensures kept { IsKept self.new }
        ensures cleared { IsCleared self.new }
        ensures blocks { self.new.blocks.entries ≡ [] }
        ensures rest { self.new ≡ record self.old { blocks = self.new.blocks; total = self.new.total; count = self.new.count } }
        ensures moves { Moves (footprint (state_of self.old)) (footprint (state_of self.new)) space.old space.new }
        ensures asked { space.new.taken ≡ space.old.taken }
    {
        while let Some((number, size)) = self.last_block() {
            self.give_block(space, number, size);
        }
    }

    // Gives all but the keeper back.
    #[tactic(auto, unfolding(crate::specs::Ledger::created))]
    pub fn reset(&mut self, space: &mut Space)
        requires kept { IsKept self.old }
        requires agrees { Agrees (footprint (state_of self.old)) space.old }
        ensures kept { IsKept self.new }
        ensures state { state_of self.new ≡ emptied (state_of self.old) }
        ensures moves { Moves (footprint (state_of self.old)) (footprint (state_of self.new)) space.old space.new }
        ensures asked { space.new.taken ≡ space.old.taken }
    {
        self.clear();
        self.give_blocks(space);
    }

    // Gives all back. Where the keeper is alone, it goes as it is.
    pub fn discard(&mut self, space: &mut Space)
        requires kept { IsKept self.old }
        requires agrees { Agrees (footprint (state_of self.old)) space.old }
        ensures moves { Moves (footprint (state_of self.old)) (nothing self.old.account self.old.context) space.old space.new }
        ensures asked { space.new.taken ≡ space.old.taken }
    {
        if self.blocks.len() != 0 {
            self.reset(space);
        }
        space.give(Addr {
            region: self.keeper,
            offset: 0,
        });
    }
}
