//! A Slab: a memory context whose chunks all have one size.
#![tactic(auto)]

ghost use Rattle.std.specs.Prelude.{◌≡◌, ℕ, ◌+◌, ◌-◌, ◌%◌, ◌<◌, ◌≤◌, ◌↔◌, ◌⊎◌, Ok, Err, None, Some, IsSome, IfOk, IfErr, IfSome, OnOk, OnErr};
ghost use Rattle.addr_space.specs.declared.Addr.{Addr};
ghost use Rattle.slab_ctx.specs.Ledger.{stats, take, give, reset, chunk_bytes};
ghost use Rattle.chunk_header.specs.declared.TheConstants.{LARGEST};

mod books;
mod ranks;
mod slots;
mod tree;

use addr_space::{Addr, Space};
use books::Books;
use chunk_header::{CONTEXT_BYTES, CtxError, Stats};
pub use slots::LARGEST_CHUNK;
use std::alloc::Global;
use std::marker::Model;

/// A context whose chunks all have one size: PostgreSQL's `SlabContext` (slab.c). It begins with a region of 200 bytes
/// that has no chunk, and takes blocks of 8,192 bytes. Each request is served from the block with the fewest free
/// chunks but at least one, the one taken earliest of such.
///
/// A call takes steps by the logarithm of the number of blocks; one that takes a block or gives one back may move as
/// many records as there are blocks.
///
/// What it keeps lies in a box, so that to move it costs little.
#[derive(Drop)]
pub struct SlabCtx {
    books: Box<Books>,
}

impl Model for SlabCtx {
    ghost use Rattle.slab_ctx.specs.State.{SlabState};

    ghost Value = { SlabState };

    ghost use Rattle.slab_ctx.specs.Kept.{state_of, IsKept};

    ghost view = { λ a. state_of a.books.value };

    ghost invariant = { λ a. IsKept a.books.value };
}

impl SlabCtx {
    ghost use Rattle.addr_space.specs.Space.{accounts, held, Asks, IsKnown};
    ghost use Rattle.addr_space.specs.Footprint.{nothing, Agrees, Moves, Keeps, KeepsBut};
    ghost use Rattle.addr_space.specs.Live.{PutsAt, PutsLive, MovesLive, HasBytesOf};
    ghost use Rattle.chunk_header.specs.declared.Kind.TheVariants.{Slab};
    ghost use Rattle.chunk_header.specs.Header.{AllHeaded, AllOfKind, TakesSpace};
    ghost use Rattle.slab_ctx.specs.Ledger.{created};
    ghost use Rattle.slab_ctx.specs.State.{place_at, footprint};
    ghost use Rattle.slab_ctx.specs.Calls.{Takes, Resizes, resize_in};

    /// A context without blocks, for an account of the space: `SlabContextCreate`. Each of its chunks has `size`
    /// bytes, and `context` is the number that its blocks keep.
    ///
    /// `NoSpace` comes where the first region doesn't fit, and before `Memory`. A refused call changes nothing.
    pub fn create(
        alloc: Global,
        space: &mut Space,
        account: u8,
        context: u32,
        size: u32,
    ) -> Result<SlabCtx, CtxError>
        requires account { account < accounts space.old }
        requires least { 1 ≤ size }
        requires most { size ≤ LARGEST_CHUNK }
        ensures ledger { IfOk result (λ a. a.ledger ≡ created size) }
        ensures account { IfOk result (λ a. (footprint a).account ≡ account) }
        ensures context { IfOk result (λ a. (footprint a).context ≡ context) }
        ensures place { IfOk result (λ a. (at : Addr) → place_at a at ≡ None) }
        ensures live { IfOk result (λ a. (at : Addr) → (footprint a).live at ≡ None) }
        ensures moves { IfOk result (λ a. Moves (nothing account context) (footprint a) space.old space.new) }
        ensures asked { OnOk result (Asks account CONTEXT_BYTES space.old space.new) }
        ensures no_space { (result ≡ Err CtxError.NoSpace) ↔ (space.old.limit < held space.old account + CONTEXT_BYTES) }
        ensures no_other { IfErr result (λ e. (e ≡ CtxError.NoSpace) ⊎ (e ≡ CtxError.Memory)) }
        ensures err_space { OnErr result (space.new ≡ space.old) }
    {
        if !space.fits(account, CONTEXT_BYTES) {
            return Err(CtxError::NoSpace);
        }
        let mut books = Books::unplaced(alloc)?;
        let made = Books::create(alloc, space, account, context, size)?;
        *books = made;
        Ok(SlabCtx { books })
    }

    /// What the context holds: `chunks` are the free chunks of all blocks, and `free` their bytes with their headers
    /// (`SlabStats`).
    #[tactic(auto, unfolding(crate::specs::Ledger::stats), using(crate::proofs::Public::length_blocks))]
    pub fn stats(&self) -> Stats
        ensures stats { result ≡ stats self.now.ledger }
        ensures total { (footprint self.now).total ≡ result.total }
    {
        self.books.stats()
    }

    /// What the context's regions have in all is what `stats` counts as their bytes. A caller cites the clause.
    #[tactic(auto, unfolding(crate::specs::Ledger::stats), using(crate::proofs::Public::length_blocks))]
    pub fn counted(&self)
        ensures { (footprint self.now).total ≡ (stats self.now.ledger).total }
    {
        let _ = &self.books;
    }

    /// Each live chunk has a header that leads to its block, and so to the context, and says what the chunk takes. A
    /// caller cites the clauses.
    pub fn headed(&self)
        ensures headed { AllHeaded (footprint self.now) }
        ensures kinds { AllOfKind Slab (footprint self.now) }
        ensures spaces { (at : Addr) (size : ℕ) → (footprint self.now).live at ≡ Some size → TakesSpace (footprint self.now) at (chunk_bytes self.now.ledger) }
    {
        self.books.headed();
    }

    /// The address of each live chunk is a multiple of 8. A caller cites the clause.
    pub fn aligned(&self)
        ensures { (at : Addr) (size : ℕ) → (footprint self.now).live at ≡ Some size → at.offset % 8 ≡ 0 }
    {
        self.books.slots.blocks.laid();
    }

    /// Takes a chunk of `size` bytes, which must be the size of the context's chunks, and answers its address:
    /// `SlabAlloc`.
    ///
    /// `TooBig`, `WrongSize`, `NoSpace` and `Memory` are tried in this order. A refused call changes nothing.
    #[inline(never)]
    pub fn alloc(&mut self, space: &mut Space, size: u64) -> Result<Addr, CtxError>
        requires { Agrees (footprint self.old) space.old }

        // The ledger makes its step for the request.
        ensures taken { IfOk result (λ at. Takes self.old self.new (space.old.limit - held space.old self.old.layout.account) size at space.old space.new) }

        // The chunk was not live, and every other chunk stays.
        ensures fresh { IfOk result (λ at. (footprint self.old).live at ≡ None) }
        ensures live { IfOk result (λ at. PutsLive (footprint self.old) (footprint self.new) at (Some size)) }
        ensures aligned { IfOk result (λ at. at.offset % 8 ≡ 0) }
        ensures moves { Moves (footprint self.old) (footprint self.new) space.old space.new }
        ensures keeps { Keeps (footprint self.old) (footprint self.new) space.old space.new }

        ensures too_big { (result ≡ Err CtxError.TooBig) ↔ (LARGEST < size) }
        ensures wrong_size { (result ≡ Err CtxError.WrongSize) ↔ (take self.old.ledger (space.old.limit - held space.old self.old.layout.account) size ≡ Err CtxError.WrongSize) }
        ensures no_space { result ≡ Err CtxError.NoSpace → take self.old.ledger (space.old.limit - held space.old self.old.layout.account) size ≡ Err CtxError.NoSpace }
        ensures no_other { IfErr result (λ e. (e ≡ CtxError.TooBig) ⊎ ((e ≡ CtxError.WrongSize) ⊎ ((e ≡ CtxError.NoSpace) ⊎ (e ≡ CtxError.Memory)))) }
        ensures err { OnErr result (self.new ≡ self.old) }
        ensures err_space { OnErr result (space.new ≡ space.old) }
    {
        let taken = self.books.alloc(space, size);
        self.books.slots.blocks.laid();
        taken
    }

    /// Frees a live chunk: `SlabFree`. It never refuses, and takes no memory: another request may have the chunk
    /// again, and a block whose last chunk it was goes back to the space where ten others are empty.
    pub fn free(&mut self, space: &mut Space, at: Addr) -> Result<(), CtxError>
        requires agrees { Agrees (footprint self.old) space.old }
        requires live { IsSome ((footprint self.old).live at) }
        ensures ok { result ≡ Ok tt }
        ensures ledger { IfSome (place_at self.old at) (λ place. self.new.ledger ≡ give self.old.ledger place) }
        ensures place { PutsAt (place_at self.old) (place_at self.new) at None }
        ensures live { PutsLive (footprint self.old) (footprint self.new) at None }
        ensures moves { Moves (footprint self.old) (footprint self.new) space.old space.new }
        ensures keeps { Keeps (footprint self.old) (footprint self.new) space.old space.new }
        ensures asked { Asks self.old.layout.account 0 space.old space.new }
    {
        self.books.free(space, at);
        Ok(())
    }

    /// Answers the address of a live chunk that is asked to have `size` bytes, which must be the size of the
    /// context's chunks: it stays where it is (`SlabRealloc`). `keep` is how many of its first bytes are known.
    ///
    /// `TooBig`, where `size` is over `LARGEST`, comes before `Unsupported`. The call changes nothing.
    pub fn realloc(
        &mut self,
        space: &mut Space,
        at: Addr,
        keep: u64,
        size: u64,
    ) -> Result<Addr, CtxError>
        requires agrees { Agrees (footprint self.old) space.old }
        requires live { IsSome ((footprint self.old).live at) }
        requires keep { IfSome ((footprint self.old).live at) (λ n. keep ≤ n) }
        requires known { IsKnown space.old at keep }

        // The ledger makes its step for the chunk, which keeps its address.
        ensures resized { IfOk result (λ to. IfSome (place_at self.old at) (λ place. Resizes self.old self.new place size at to space.old space.new)) }
        ensures stays { IfOk result (λ to. to ≡ at) }
        ensures live { IfOk result (λ to. MovesLive (footprint self.old) (footprint self.new) at to size) }
        ensures aligned { IfOk result (λ to. to.offset % 8 ≡ 0) }
        ensures moves { Moves (footprint self.old) (footprint self.new) space.old space.new }
        ensures keeps { Keeps (footprint self.old) (footprint self.new) space.old space.new }

        ensures too_big { (result ≡ Err CtxError.TooBig) ↔ (LARGEST < size) }
        ensures unsupported { IfSome (place_at self.old at) (λ place. (result ≡ Err CtxError.Unsupported) ↔ (resize_in self.old space.old place size ≡ Err CtxError.Unsupported)) }
        ensures no_other { IfErr result (λ e. (e ≡ CtxError.TooBig) ⊎ (e ≡ CtxError.Unsupported)) }
        ensures same { self.new ≡ self.old }
        ensures same_space { space.new ≡ space.old }
    {
        self.aligned();
        self.books.realloc(at, size)
    }

    /// Frees all chunks: all blocks go back to the space, and the context is as it was created (`SlabReset`). It takes
    /// no memory.
    #[inline(never)]
    pub fn reset(&mut self, space: &mut Space)
        requires { Agrees (footprint self.old) space.old }
        ensures ledger { self.new.ledger ≡ reset self.old.ledger }
        ensures account { (footprint self.new).account ≡ (footprint self.old).account }
        ensures context { (footprint self.new).context ≡ (footprint self.old).context }
        ensures place { (at : Addr) → place_at self.new at ≡ None }
        ensures live { (at : Addr) → (footprint self.new).live at ≡ None }
        ensures moves { Moves (footprint self.old) (footprint self.new) space.old space.new }
        ensures asked { Asks self.old.layout.account 0 space.old space.new }
    {
        self.books.reset(space);
    }

    /// Gives all blocks and the first region back to the space: `SlabDelete`. It takes no memory.
    #[inline(never)]
    pub fn discard(self, space: &mut Space)
        requires { Agrees (footprint self) space.old }
        ensures moves { Moves (footprint self) (nothing (footprint self).account (footprint self).context) space.old space.new }
        ensures asked { Asks (footprint self).account 0 space.old space.new }
    {
        let SlabCtx { books } = self;
        Box::into_inner(books).discard(space);
    }
}
