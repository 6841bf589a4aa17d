//! A Bump: a memory context that never frees a chunk, and so writes no headers before them, as PostgreSQL's bump.c
//! has it.
#![tactic(auto)]

ghost use Rattle.std.specs.Prelude.{◌≡◌, ℕ, ◌+◌, ◌-◌, ◌%◌, ◌<◌, ◌≤◌, ◌↔◌, ◌⊎◌, Ok, Err, None, Some, IsSome, IfOk, IfErr, OnOk, OnErr};
ghost use Rattle.addr_space.specs.declared.Addr.{Addr};
ghost use Rattle.bump_ctx.specs.Ledger.{stats, take};
ghost use Rattle.chunk_header.specs.declared.TheConstants.{LEAST_BLOCK, LARGEST_BLOCK};

mod books;

use addr_space::{Addr, Space};
use books::Books;
use chunk_header::{CtxError, LARGEST, Sizes, Stats};
use std::alloc::Global;
use std::marker::Model;

/// A context whose chunks have a multiple of 8 bytes without a header, or a block for themselves. None of them is
/// freed before all are.
///
/// What it keeps lies in a box, so that to move it costs little.
#[derive(Drop)]
pub struct BumpCtx {
    books: Box<Books>,
}

impl Model for BumpCtx {
    ghost use Rattle.bump_ctx.specs.State.{BumpState};

    ghost Value = { BumpState };

    ghost use Rattle.bump_ctx.specs.Kept.{state_of, IsKept};

    ghost view = { λ a. state_of a.books.value };

    ghost invariant = { λ a. IsKept a.books.value };
}

impl BumpCtx {
    ghost use Rattle.addr_space.specs.Space.{accounts, held, Asks};
    ghost use Rattle.addr_space.specs.Footprint.{nothing, Agrees, Moves, Keeps};
    ghost use Rattle.addr_space.specs.Live.{PutsLive};
    ghost use Rattle.bump_ctx.specs.State.{place_at, footprint};
    ghost use Rattle.bump_ctx.specs.Ledger.{created, refusal, reset};
    ghost use Rattle.bump_ctx.specs.Calls.{Takes};

    /// A context with one block, for an account of the space: `BumpContextCreate` of PostgreSQL's bump.c. `context` is
    /// the number that its blocks keep.
    ///
    /// `NoSpace` comes where the first block doesn't fit, and before `Memory`. A refused call changes nothing.
    pub fn create(
        alloc: Global,
        space: &mut Space,
        account: u8,
        context: u32,
        sizes: Sizes,
    ) -> Result<BumpCtx, CtxError>
        requires account { account < accounts space.old }
        requires least { LEAST_BLOCK ≤ sizes.init }
        requires order { sizes.init ≤ sizes.max }
        requires most { sizes.max ≤ LARGEST_BLOCK }
        requires whole_init { sizes.init % 8 ≡ 0 }
        requires whole_max { sizes.max % 8 ≡ 0 }
        ensures ledger { IfOk result (λ a. a.ledger ≡ created sizes.init sizes.max) }
        ensures account { IfOk result (λ a. (footprint a).account ≡ account) }
        ensures context { IfOk result (λ a. (footprint a).context ≡ context) }
        ensures place { IfOk result (λ a. (at : Addr) → place_at a at ≡ None) }
        ensures live { IfOk result (λ a. (at : Addr) → (footprint a).live at ≡ None) }
        ensures moves { IfOk result (λ a. Moves (nothing account context) (footprint a) space.old space.new) }
        ensures asked { OnOk result (Asks account sizes.init space.old space.new) }
        ensures no_space { (result ≡ Err CtxError.NoSpace) ↔ (space.old.limit < held space.old account + sizes.init) }
        ensures no_other { IfErr result (λ e. (e ≡ CtxError.NoSpace) ⊎ (e ≡ CtxError.Memory)) }
        ensures err_space { OnErr result (space.new ≡ space.old) }
    {
        if !space.fits(account, sizes.init) {
            return Err(CtxError::NoSpace);
        }
        let mut books = Books::unplaced(alloc)?;
        let made = Books::create(alloc, space, account, context, sizes)?;
        *books = made;
        Ok(BumpCtx { books })
    }

    /// What the context holds: `free` are the rooms of all blocks, and `chunks` is 0 (`BumpStats`).
    #[tactic(auto, unfolding(crate::specs::Ledger::stats))]
    pub fn stats(&self) -> Stats
        ensures stats { result ≡ stats self.now.ledger }
        ensures total { (footprint self.now).total ≡ result.total }
    {
        self.books.stats()
    }

    /// What the context's regions have in all is what `stats` counts as their bytes. A caller cites the clause.
    pub fn counted(&self)
        ensures { (footprint self.now).total ≡ (stats self.now.ledger).total }
    {
        let _ = &self.books;
    }

    /// The address of each live chunk is a multiple of 8. A caller cites the clause.
    pub fn aligned(&self)
        ensures { (at : Addr) (size : ℕ) → (footprint self.now).live at ≡ Some size → at.offset % 8 ≡ 0 }
    {
        self.books.blocks.laid();
    }

    /// Takes a chunk of `size` bytes, which may be 0, and answers its address: `BumpAlloc`.
    ///
    /// `TooBig`, where `size` is over `LARGEST`, `NoSpace` and `Memory` are tried in this order. A refused call
    /// changes nothing.
    #[inline(never)]
    pub fn alloc(&mut self, space: &mut Space, size: u64) -> Result<Addr, CtxError>
        requires { Agrees (footprint self.old) space.old }

        // The ledger makes its step for the request, with what is left of the account, and answers the bytes asked.
        ensures taken { IfOk result (λ at. Takes self.old self.new (space.old.limit - held space.old self.old.layout.account) size at space.old space.new) }

        // The chunk was not live, and every other chunk stays.
        ensures fresh { IfOk result (λ at. (footprint self.old).live at ≡ None) }
        ensures live { IfOk result (λ at. PutsLive (footprint self.old) (footprint self.new) at (Some size)) }
        ensures aligned { IfOk result (λ at. at.offset % 8 ≡ 0) }
        ensures moves { Moves (footprint self.old) (footprint self.new) space.old space.new }
        ensures keeps { Keeps (footprint self.old) (footprint self.new) space.old space.new }

        ensures too_big { (result ≡ Err CtxError.TooBig) ↔ (LARGEST < size) }
        ensures no_space { result ≡ Err CtxError.NoSpace → take self.old.ledger (space.old.limit - held space.old self.old.layout.account) size ≡ Err CtxError.NoSpace }
        ensures no_other { IfErr result (λ e. (e ≡ CtxError.TooBig) ⊎ ((e ≡ CtxError.NoSpace) ⊎ (e ≡ CtxError.Memory))) }
        ensures err { OnErr result (self.new ≡ self.old) }
        ensures err_space { OnErr result (space.new ≡ space.old) }
    {
        let taken = self.books.alloc(space, size);
        self.books.blocks.laid();
        taken
    }

    /// Refuses to free a live chunk: the answer is `Unsupported`, and nothing changes (`BumpFree`).
    pub fn free(&mut self, space: &mut Space, at: Addr) -> Result<(), CtxError>
        requires agrees { Agrees (footprint self.old) space.old }
        requires live { IsSome ((footprint self.old).live at) }
        ensures unsupported { result ≡ Err CtxError.Unsupported }
        ensures err { self.new ≡ self.old }
        ensures err_space { space.new ≡ space.old }
    {
        let _ = &self.books;
        Err(CtxError::Unsupported)
    }

    /// Refuses to give a live chunk another size: the answer is `TooBig` where `size` is over `LARGEST`, else
    /// `Unsupported`, and nothing changes (`BumpRealloc`).
    #[tactic(auto, unfolding(crate::specs::Ledger::refusal))]
    pub fn realloc(
        &mut self,
        space: &mut Space,
        at: Addr,
        keep: u64,
        size: u64,
    ) -> Result<Addr, CtxError>
        requires agrees { Agrees (footprint self.old) space.old }
        requires live { IsSome ((footprint self.old).live at) }
        ensures refused { result ≡ Err (refusal size) }
        ensures err { self.new ≡ self.old }
        ensures err_space { space.new ≡ space.old }
    {
        let _ = &self.books;
        if size > LARGEST {
            return Err(CtxError::TooBig);
        }
        Err(CtxError::Unsupported)
    }

    /// Frees all chunks and gives every block but the first back: `BumpReset`. The ledger is that of a new context. It
    /// takes no memory.
    #[inline(never)]
    pub fn reset(&mut self, space: &mut Space)
        requires agrees { Agrees (footprint self.old) space.old }
        ensures ledger { self.new.ledger ≡ reset self.old.ledger }
        ensures place { (at : Addr) → place_at self.new at ≡ None }
        ensures live { (at : Addr) → (footprint self.new).live at ≡ None }
        ensures moves { Moves (footprint self.old) (footprint self.new) space.old space.new }
        ensures asked { Asks self.old.layout.account 0 space.old space.new }
    {
        self.books.reset(space);
    }

    /// Gives all blocks back: `BumpDelete`. It takes no memory.
    #[inline(never)]
    pub fn discard(self, space: &mut Space)
        requires agrees { Agrees (footprint self) space.old }
        ensures moves { Moves (footprint self) (nothing (footprint self).account (footprint self).context) space.old space.new }
        ensures asked { Asks self.layout.account 0 space.old space.new }
    {
        let BumpCtx { books } = self;
        Box::into_inner(books).discard(space);
    }
}
