//! An AllocSet: a memory context that keeps its freed chunks by class, as PostgreSQL's aset.c has it.
#![tactic(auto)]

ghost use Rattle.std.specs.Prelude.{◌≡◌, ◌≢◌, ℕ, ◌+◌, ◌-◌, ◌%◌, ◌^◌, ◌<◌, ◌≤◌, ◌↔◌, ◌⊎◌, Ok, Err, None, Some, IfOk, IfErr, OnOk, OnErr, IsSome, IfSome, min, ◌==◌, if◌then◌else◌};
ghost use Rattle.addr_space.specs.declared.Addr.{Addr};
ghost use Rattle.alloc_set.specs.Ledger.{SetPlace, created, take, give, reset, chunk_bytes, stats};
ghost use Rattle.chunk_header.specs.declared.TheConstants.{LARGEST, LEAST_BLOCK, LARGEST_BLOCK};

mod books;
mod chunk;
mod chunks;
mod classes;
mod giving;
mod linking;
mod resizing;

use addr_space::{Addr, Space};
use books::Books;
use chunk_header::{CONTEXT_BYTES, CtxError, FreeList, Kind, Sizes, Stats, block_header};
use std::alloc::Global;
use std::marker::Model;

/// The boxes that contexts have left for the next ones.
pub type SetBoxes = FreeList<Books>;

/// A context whose chunks have a power of two of bytes, or a block for themselves.
///
/// What it keeps lies in a box, so that to move it costs little.
#[derive(Drop)]
pub struct AllocSet {
    books: Box<Books>,
}

impl Model for AllocSet {
    ghost use Rattle.alloc_set.specs.State.{SetState};

    ghost Value = { SetState };

    ghost use Rattle.alloc_set.specs.Kept.{state_of, IsKept};

    ghost view = { λ a. state_of a.books.value };

    ghost invariant = { λ a. IsKept a.books.value };
}

impl AllocSet {
    ghost use Rattle.addr_space.specs.Space.{accounts, held, IsKnown, Asks};
    ghost use Rattle.addr_space.specs.Footprint.{nothing, Agrees, Moves, Keeps, KeepsBut};
    ghost use Rattle.addr_space.specs.Live.{PutsAt, PutsLive, MovesLive, HasBytesOf};
    ghost use Rattle.chunk_header.specs.Header.{AllHeaded, AllOfKind, TakesSpace};
    ghost use Rattle.alloc_set.specs.State.{place_at, footprint};
    ghost use Rattle.alloc_set.specs.Calls.{Takes, Resizes, resize_in};

    /// A context with one block, for an account of the space: `AllocSetContextCreate` of PostgreSQL's aset.c.
    /// `context` is the number that its blocks keep.
    ///
    /// `NoSpace` comes where the first block doesn't fit, and before `Memory`. A refused call changes nothing.
    pub fn create(
        alloc: Global,
        boxes: &mut SetBoxes,
        space: &mut Space,
        account: u8,
        context: u32,
        sizes: Sizes,
    ) -> Result<AllocSet, CtxError>
        requires account { account < accounts space.old }
        requires least { LEAST_BLOCK ≤ sizes.init }
        requires order { sizes.init ≤ sizes.max }
        requires most { sizes.max ≤ LARGEST_BLOCK }
        requires whole_init { sizes.init % 8 ≡ 0 }
        requires whole_max { sizes.max % 8 ≡ 0 }
        ensures ledger { IfOk result (λ a. a.ledger ≡ created sizes.init sizes.max) }
        ensures account { IfOk result (λ a. a.account ≡ account) }
        ensures context { IfOk result (λ a. a.context ≡ context) }
        ensures place { IfOk result (λ a. (at : Addr) → place_at a at ≡ None) }
        ensures live { IfOk result (λ a. (at : Addr) → (footprint a).live at ≡ None) }
        ensures moves { IfOk result (λ a. Moves (nothing account context) (footprint a) space.old space.new) }
        ensures asked { OnOk result (Asks account sizes.init space.old space.new) }
        ensures no_space { (result ≡ Err CtxError.NoSpace) ↔ (space.old.limit < held space.old account + sizes.init) }
        ensures no_other { IfErr result (λ e. (e ≡ CtxError.NoSpace) ⊎ (e ≡ CtxError.Memory)) }
        ensures err_space { OnErr result (space.new ≡ space.old) }
    {
        if !space.fits(account, sizes.init) {
            return Err(CtxError::NoSpace);
        }
        let Some(mut books) = Books::boxed(alloc, boxes, account, context, sizes) else {
            return Err(CtxError::Memory);
        };
        let at = space.take(account, sizes.init)?;
        space.write(
            Addr {
                region: at.region,
                offset: CONTEXT_BYTES,
            },
            &block_header(context, sizes.init),
        );
        books.keeper = at.region;
        books.active.region = at.region;
        Ok(AllocSet { books })
    }

    /// What the context holds: `AllocSetStats`.
    #[tactic(auto, unfolding(crate::specs::Ledger::stats))]
    pub fn stats(&self) -> Stats
        ensures stats { result ≡ stats self.now.ledger }
        ensures total { (footprint self.now).total ≡ result.total }
    {
        self.books.stats()
    }

    /// What the context's regions have in all is what `stats` counts as their bytes. A caller cites the clause.
    #[tactic(auto, unfolding(crate::specs::Ledger::stats))]
    pub fn counted(&self)
        ensures { (footprint self.now).total ≡ (stats self.now.ledger).total }
    {
        let _ = &self.books;
    }

    /// Each live chunk has a header that leads to its block, and so to the context, and says what the chunk takes:
    /// the laws that `GetMemoryChunkContext` and `GetMemoryChunkSpace` stand on. A caller cites the clauses.
    pub fn headed(&self)
        ensures headed { AllHeaded (footprint self.now) }
        ensures kinds { AllOfKind Kind.AllocSet (footprint self.now) }
        ensures spaces { (at : Addr) (place : SetPlace) → place_at self.now at ≡ Some place → TakesSpace (footprint self.now) at (chunk_bytes self.now.ledger place) }
    {
        let _ = &self.books;
    }

    /// The address of each live chunk is a multiple of 8. A caller cites the clause.
    pub fn aligned(&self)
        ensures { (at : Addr) (size : ℕ) → (footprint self.now).live at ≡ Some size → at.offset % 8 ≡ 0 }
    {
        let _ = &self.books;
    }

    /// Takes a chunk of `size` bytes, which may be 0, and answers its address: `AllocSetAlloc`. A chunk that was
    /// freed before has the bytes that stood there, but for the first 8, which may be others.
    ///
    /// `TooBig`, where `size` is over `LARGEST`, `NoSpace` and `Memory` are tried in this order. A refused call changes nothing.
    pub fn alloc(&mut self, space: &mut Space, size: u64) -> Result<Addr, CtxError>
        requires { Agrees (footprint self.old) space.old }

        // The ledger makes its step for the request, with what is left of the account, and answers the chunk's place
        // and the bytes asked. Every other chunk keeps its place.
        ensures taken { IfOk result (λ at. Takes self.old self.new (space.old.limit - held space.old self.old.account) size at space.old space.new) }

        // The chunk was not live, and every other chunk keeps its size.
        ensures fresh { IfOk result (λ at. (footprint self.old).live at ≡ None) }
        ensures live { IfOk result (λ at. PutsLive (footprint self.old) (footprint self.new) at (Some size)) }
        ensures aligned { IfOk result (λ at. at.offset % 8 ≡ 0) }
        ensures moves { Moves (footprint self.old) (footprint self.new) space.old space.new }
        ensures keeps { Keeps (footprint self.old) (footprint self.new) space.old space.new }

        ensures too_big { (result ≡ Err CtxError.TooBig) ↔ (LARGEST < size) }
        ensures no_space { result ≡ Err CtxError.NoSpace → take self.old.ledger (space.old.limit - held space.old self.old.account) size ≡ Err CtxError.NoSpace }
        ensures no_other { IfErr result (λ e. (e ≡ CtxError.TooBig) ⊎ ((e ≡ CtxError.NoSpace) ⊎ (e ≡ CtxError.Memory))) }
        ensures err { OnErr result (self.new ≡ self.old) }
        ensures err_space { OnErr result (space.new ≡ space.old) }
    {
        self.books.alloc(space, size)
    }

    /// Frees a live chunk: `AllocSetFree`. The call never refuses, and takes no memory.
    ///
    /// A chunk of a class is kept for a later request of that class. A block that the chunk had for itself goes back to the space.
    pub fn free(&mut self, space: &mut Space, at: Addr) -> Result<(), CtxError>
        requires agrees { Agrees (footprint self.old) space.old }
        requires live { IsSome ((footprint self.old).live at) }
        ensures ok { result ≡ Ok tt }
        ensures ledger { IfSome (place_at self.old at) (λ place. self.new.ledger ≡ give self.old.ledger place) }
        ensures place { PutsAt (place_at self.old) (place_at self.new) at None }
        ensures live { PutsLive (footprint self.old) (footprint self.new) at None }
        ensures moves { Moves (footprint self.old) (footprint self.new) space.old space.new }
        ensures keeps { Keeps (footprint self.old) (footprint self.new) space.old space.new }
        ensures asked { Asks self.old.account 0 space.old space.new }
    {
        self.books.free(space, at);
        Ok(())
    }

    /// Gives a live chunk a size of `size` bytes, which may be 0, and answers where it is now: `AllocSetRealloc`.
    /// `keep` is how many of its first bytes are known.
    ///
    /// The chunk stays where its class has the size, or where it has a block for itself, which then gets another length.
    /// Else a new chunk is taken, the known bytes that have room there are copied, and the old chunk is freed.
    ///
    /// `TooBig`, where `size` is over `LARGEST`, comes before `NoSpace`, and `Memory` may come in place of
    /// any other. A refused call changes nothing.
    pub fn realloc(
        &mut self,
        space: &mut Space,
        at: Addr,
        keep: u64,
        size: u64,
    ) -> Result<Addr, CtxError>
        requires agrees { Agrees (footprint self.old) space.old }
        requires live { IsSome ((footprint self.old).live at) }
        requires keep { IfSome ((footprint self.old).live at) (λ n. keep ≤ n) }
        requires known { IsKnown space.old at keep }

        // The ledger makes its step for the chunk's place, with what the account holds and may hold, and answers the
        // chunk's new place, the bytes asked, and whether it stays at its address. Every other chunk keeps its place.
        ensures resized { IfOk result (λ to. IfSome (place_at self.old at) (λ place. Resizes self.old self.new place size at to space.old space.new)) }

        // Where the chunk is at another address, none was live there, and the old address has none.
        ensures fresh { IfOk result (λ to. to ≢ at → (footprint self.old).live to ≡ None) }
        ensures live { IfOk result (λ to. MovesLive (footprint self.old) (footprint self.new) at to size) }
        ensures aligned { IfOk result (λ to. to.offset % 8 ≡ 0) }
        ensures bytes { IfOk result (λ to. HasBytesOf space.old space.new at to (min keep size)) }
        ensures known { IfOk result (λ to. IsKnown space.new to (min keep size)) }
        ensures moves { Moves (footprint self.old) (footprint self.new) space.old space.new }
        ensures keeps { KeepsBut at (footprint self.old) (footprint self.new) space.old space.new }

        ensures too_big { (result ≡ Err CtxError.TooBig) ↔ (LARGEST < size) }
        ensures no_space { result ≡ Err CtxError.NoSpace → IfSome (place_at self.old at) (λ place. resize_in self.old space.old place size ≡ Err CtxError.NoSpace) }
        ensures no_other { IfErr result (λ e. (e ≡ CtxError.TooBig) ⊎ ((e ≡ CtxError.NoSpace) ⊎ (e ≡ CtxError.Memory))) }
        ensures err { OnErr result (self.new ≡ self.old) }
        ensures err_space { OnErr result (space.new ≡ space.old) }
    {
        self.books.realloc(space, at, keep, size)
    }

    /// Frees all chunks: `AllocSetReset`. All blocks but the first go back, as in a new context. It takes no memory.
    pub fn reset(&mut self, space: &mut Space)
        requires agrees { Agrees (footprint self.old) space.old }
        ensures ledger { self.new.ledger ≡ reset self.old.ledger }
        ensures place { (at : Addr) → place_at self.new at ≡ None }
        ensures live { (at : Addr) → (footprint self.new).live at ≡ None }
        ensures moves { Moves (footprint self.old) (footprint self.new) space.old space.new }
        ensures asked { Asks self.old.account 0 space.old space.new }
    {
        self.books.reset(space);
    }

    /// Frees all chunks, and gives all blocks, the first too, back: `AllocSetDelete`. It takes no memory.
    pub fn discard(self, space: &mut Space, boxes: &mut SetBoxes)
        requires agrees { Agrees (footprint self) space.old }
        ensures moves { Moves (footprint self) (nothing self.account self.context) space.old space.new }
        ensures asked { Asks self.account 0 space.old space.new }
    {
        let AllocSet { mut books } = self;
        books.discard(space);
        boxes.keep(books);
    }
}
