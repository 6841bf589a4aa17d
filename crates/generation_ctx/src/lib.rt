//! A Generation: a memory context for chunks that live about as long as their neighbours, whose blocks come free
//! as a whole.
#![tactic(auto)]

ghost use Rattle.std.specs.Prelude.{◌≡◌, ◌≢◌, ℕ, ◌+◌, ◌-◌, ◌%◌, ◌<◌, ◌≤◌, ◌↔◌, ◌⊎◌, min, Ok, Err, None, Some, IsSome, IfSome, IfOk, IfErr, OnOk, OnErr};
ghost use Rattle.addr_space.specs.declared.Addr.{Addr};
ghost use Rattle.generation_ctx.specs.Ledger.{stats, take, give, reset, chunk_bytes};
ghost use Rattle.chunk_header.specs.declared.TheConstants.{LARGEST, LEAST_BLOCK, LARGEST_BLOCK};

mod books;

use addr_space::{Addr, Space};
use books::Books;
use chunk_header::{CtxError, Sizes, Stats};
use std::alloc::Global;
use std::marker::Model;

/// A context whose chunks have a multiple of 8 bytes, or a block for themselves: PostgreSQL's `GenerationContext`
/// (generation.c). A block whose chunks were all freed is used again, or goes back.
///
/// What it keeps lies in a box, so that to move it costs little.
#[derive(Drop)]
pub struct GenerationCtx {
    books: Box<Books>,
}

impl Model for GenerationCtx {
    ghost use Rattle.generation_ctx.specs.State.{GenerationState};

    ghost Value = { GenerationState };

    ghost use Rattle.generation_ctx.specs.Kept.{state_of, IsKept};

    ghost view = { λ a. state_of a.books.value };

    ghost invariant = { λ a. IsKept a.books.value };
}

impl GenerationCtx {
    ghost use Rattle.addr_space.specs.Space.{accounts, held, Asks, IsKnown};
    ghost use Rattle.addr_space.specs.Footprint.{nothing, Agrees, Moves, Keeps, KeepsBut};
    ghost use Rattle.addr_space.specs.Live.{PutsAt, PutsLive, MovesLive, HasBytesOf};
    ghost use Rattle.chunk_header.specs.declared.Kind.TheVariants.{Generation};
    ghost use Rattle.chunk_header.specs.Header.{AllHeaded, AllOfKind, TakesSpace};
    ghost use Rattle.generation_ctx.specs.Ledger.{GenerationPlace, created};
    ghost use Rattle.generation_ctx.specs.State.{place_at, footprint};
    ghost use Rattle.generation_ctx.specs.Calls.{Takes, Resizes, resize_in};

    /// A context with one block, for an account of the space: `GenerationContextCreate`. `context` is the number that
    /// its blocks keep.
    ///
    /// `NoSpace` comes where the first block doesn't fit, and before `Memory`. A refused call changes nothing.
    pub fn create(
        alloc: Global,
        space: &mut Space,
        account: u8,
        context: u32,
        sizes: Sizes,
    ) -> Result<GenerationCtx, CtxError>
        requires account { account < accounts space.old }
        requires least { LEAST_BLOCK ≤ sizes.init }
        requires order { sizes.init ≤ sizes.max }
        requires most { sizes.max ≤ LARGEST_BLOCK }
        requires whole_init { sizes.init % 8 ≡ 0 }
        requires whole_max { sizes.max % 8 ≡ 0 }
        ensures ledger { IfOk result (λ a. a.ledger ≡ created sizes.init sizes.max) }
        ensures account { IfOk result (λ a. (footprint a).account ≡ account) }
        ensures context { IfOk result (λ a. (footprint a).context ≡ context) }
        ensures place { IfOk result (λ a. (at : Addr) → place_at a at ≡ None) }
        ensures live { IfOk result (λ a. (at : Addr) → (footprint a).live at ≡ None) }
        ensures moves { IfOk result (λ a. Moves (nothing account context) (footprint a) space.old space.new) }
        ensures asked { OnOk result (Asks account sizes.init space.old space.new) }
        ensures no_space { (result ≡ Err CtxError.NoSpace) ↔ (space.old.limit < held space.old account + sizes.init) }
        ensures no_other { IfErr result (λ e. (e ≡ CtxError.NoSpace) ⊎ (e ≡ CtxError.Memory)) }
        ensures err_space { OnErr result (space.new ≡ space.old) }
    {
        if !space.fits(account, sizes.init) {
            return Err(CtxError::NoSpace);
        }
        let mut books = Books::unplaced(alloc)?;
        let made = Books::create(alloc, space, account, context, sizes)?;
        *books = made;
        Ok(GenerationCtx { books })
    }

    /// What the context holds: `free` are the rooms of all blocks, and `chunks` how many chunks were freed in them
    /// since each last had its whole room (`GenerationStats`).
    pub fn stats(&self) -> Stats
        ensures stats { result ≡ stats self.now.ledger }
        ensures total { (footprint self.now).total ≡ result.total }
    {
        self.books.stats()
    }

    /// What the context's regions have in all is what `stats` counts as their bytes. A caller cites the clause.
    pub fn counted(&self)
        ensures { (footprint self.now).total ≡ (stats self.now.ledger).total }
    {
        let _ = &self.books;
    }

    /// Each live chunk has a header that leads to its block, and so to the context, and says what the chunk takes. A
    /// caller cites the clauses.
    pub fn headed(&self)
        ensures headed { AllHeaded (footprint self.now) }
        ensures kinds { AllOfKind Generation (footprint self.now) }
        ensures spaces { (at : Addr) (place : GenerationPlace) → place_at self.now at ≡ Some place → TakesSpace (footprint self.now) at (chunk_bytes place) }
    {
        self.books.headed();
    }

    /// The address of each live chunk is a multiple of 8. A caller cites the clause.
    pub fn aligned(&self)
        ensures { (at : Addr) (size : ℕ) → (footprint self.now).live at ≡ Some size → at.offset % 8 ≡ 0 }
    {
        self.books.blocks.laid();
    }

    /// Takes a chunk of `size` bytes, which may be 0, and answers its address: `GenerationAlloc`.
    ///
    /// `TooBig`, `NoSpace` and `Memory` are tried in this order. A refused call changes nothing.
    #[inline(never)]
    pub fn alloc(&mut self, space: &mut Space, size: u64) -> Result<Addr, CtxError>
        requires { Agrees (footprint self.old) space.old }

        // The ledger makes its step for the request.
        ensures taken { IfOk result (λ at. Takes self.old self.new (space.old.limit - held space.old self.old.layout.account) size at space.old space.new) }

        // The chunk was not live, and every other chunk stays.
        ensures fresh { IfOk result (λ at. (footprint self.old).live at ≡ None) }
        ensures live { IfOk result (λ at. PutsLive (footprint self.old) (footprint self.new) at (Some size)) }
        ensures aligned { IfOk result (λ at. at.offset % 8 ≡ 0) }
        ensures moves { Moves (footprint self.old) (footprint self.new) space.old space.new }
        ensures keeps { Keeps (footprint self.old) (footprint self.new) space.old space.new }

        ensures too_big { (result ≡ Err CtxError.TooBig) ↔ (LARGEST < size) }
        ensures no_space { result ≡ Err CtxError.NoSpace → take self.old.ledger (space.old.limit - held space.old self.old.layout.account) size ≡ Err CtxError.NoSpace }
        ensures no_other { IfErr result (λ e. (e ≡ CtxError.TooBig) ⊎ ((e ≡ CtxError.NoSpace) ⊎ (e ≡ CtxError.Memory))) }
        ensures err { OnErr result (self.new ≡ self.old) }
        ensures err_space { OnErr result (space.new ≡ space.old) }
    {
        let taken = self.books.alloc(space, size);
        self.books.blocks.laid();
        taken
    }

    /// Frees a live chunk: `GenerationFree`. It never refuses, and takes no memory. A block that the chunk had for
    /// itself goes back to the space. Of a shared block whose last live chunk it is, the room is whole again, or the
    /// block goes back.
    pub fn free(&mut self, space: &mut Space, at: Addr) -> Result<(), CtxError>
        requires agrees { Agrees (footprint self.old) space.old }
        requires live { IsSome ((footprint self.old).live at) }
        ensures ok { result ≡ Ok tt }
        ensures ledger { IfSome (place_at self.old at) (λ place. self.new.ledger ≡ give self.old.ledger place) }
        ensures place { PutsAt (place_at self.old) (place_at self.new) at None }
        ensures live { PutsLive (footprint self.old) (footprint self.new) at None }
        ensures moves { Moves (footprint self.old) (footprint self.new) space.old space.new }
        ensures keeps { Keeps (footprint self.old) (footprint self.new) space.old space.new }
        ensures asked { Asks self.old.layout.account 0 space.old space.new }
    {
        self.books.free(space, at);
        Ok(())
    }

    /// Gives a live chunk a size of `size` bytes, which may be 0, and answers where it is now: `GenerationRealloc`.
    /// `keep` is how many of its first bytes are known.
    ///
    /// The chunk stays where it may have the size. Else a new chunk is taken, the first `keep` bytes are copied, and
    /// the old chunk is freed.
    ///
    /// `TooBig`, where `size` is over `LARGEST`, comes before `NoSpace`, and `Memory` may come in place of any
    /// other but `TooBig`. A refused call changes nothing.
    pub fn realloc(
        &mut self,
        space: &mut Space,
        at: Addr,
        keep: u64,
        size: u64,
    ) -> Result<Addr, CtxError>
        requires agrees { Agrees (footprint self.old) space.old }
        requires live { IsSome ((footprint self.old).live at) }
        requires keep { IfSome ((footprint self.old).live at) (λ n. keep ≤ n) }
        requires known { IsKnown space.old at keep }

        // The ledger makes its step for the chunk, which keeps its address exactly where the ledger says that it stays.
        ensures resized { IfOk result (λ to. IfSome (place_at self.old at) (λ place. Resizes self.old self.new place size at to space.old space.new)) }

        // Where the chunk is at another address none was live there, the old address has none, and every other chunk stays.
        ensures fresh { IfOk result (λ to. to ≢ at → (footprint self.old).live to ≡ None) }
        ensures live { IfOk result (λ to. MovesLive (footprint self.old) (footprint self.new) at to size) }
        ensures aligned { IfOk result (λ to. to.offset % 8 ≡ 0) }
        ensures bytes { IfOk result (λ to. HasBytesOf space.old space.new at to (min keep size)) }
        ensures known { IfOk result (λ to. IsKnown space.new to (min keep size)) }
        ensures moves { Moves (footprint self.old) (footprint self.new) space.old space.new }
        ensures keeps { KeepsBut at (footprint self.old) (footprint self.new) space.old space.new }

        ensures too_big { (result ≡ Err CtxError.TooBig) ↔ (LARGEST < size) }
        ensures no_space { result ≡ Err CtxError.NoSpace → IfSome (place_at self.old at) (λ place. resize_in self.old space.old place size ≡ Err CtxError.NoSpace) }
        ensures no_other { IfErr result (λ e. (e ≡ CtxError.TooBig) ⊎ ((e ≡ CtxError.NoSpace) ⊎ (e ≡ CtxError.Memory))) }
        ensures err { OnErr result (self.new ≡ self.old) }
        ensures err_space { OnErr result (space.new ≡ space.old) }
    {
        let resized = self.books.realloc(space, at, keep, size);
        self.books.blocks.laid();
        resized
    }

    /// Frees all chunks and gives every block but the first back: the context is as it was created
    /// (`GenerationReset`). It takes no memory.
    #[inline(never)]
    pub fn reset(&mut self, space: &mut Space)
        requires { Agrees (footprint self.old) space.old }
        ensures ledger { self.new.ledger ≡ reset self.old.ledger }
        ensures place { (at : Addr) → place_at self.new at ≡ None }
        ensures live { (at : Addr) → (footprint self.new).live at ≡ None }
        ensures moves { Moves (footprint self.old) (footprint self.new) space.old space.new }
        ensures asked { Asks self.old.layout.account 0 space.old space.new }
    {
        self.books.reset(space);
    }

    /// Gives all blocks back: `GenerationDelete`. It takes no memory.
    #[inline(never)]
    pub fn discard(self, space: &mut Space)
        requires { Agrees (footprint self) space.old }
        ensures moves { Moves (footprint self) (nothing (footprint self).account (footprint self).context) space.old space.new }
        ensures asked { Asks (footprint self).account 0 space.old space.new }
    {
        let GenerationCtx { books } = self;
        Box::into_inner(books).discard(space);
    }
}
