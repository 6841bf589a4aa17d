//! A memory context of any kind.
ghost use Rattle.std.specs.Prelude.{◌≡◌, ◌≢◌, ℕ, ◌+◌, ◌-◌, ◌%◌, ◌<◌, ◌≤◌, ◌↔◌, ◌⊎◌, Ok, Err, None, Some, IsSome, IfOk, IfErr, IfSome, OnOk, OnErr, min};
ghost use Rattle.addr_space.specs.declared.Addr.{Addr};
ghost use Rattle.addr_space.specs.Space.{accounts, held, Asks, IsKnown};
ghost use Rattle.addr_space.specs.Footprint.{nothing, Agrees, Moves, Keeps, KeepsBut};
ghost use Rattle.addr_space.specs.Live.{PutsAt, PutsLive, MovesLive, HasBytesOf};
ghost use Rattle.chunk_header.specs.Header.{AllHeaded, AllOfKind, TakesSpace};
ghost use Rattle.any_ctx.specs.Ledgers.{Ledger, Place, OfSet, take, give, reset, stats, chunk_bytes, IsBump};
ghost use Rattle.any_ctx.specs.Kinds.{first_size, IsSlabSize, created};
ghost use Rattle.any_ctx.specs.Contexts.{footprint, ledger, place_at, kind_of};
ghost use Rattle.any_ctx.specs.Calls.{take_in, Takes, IsWrongSize, resize_in, Resizes, IsUnsupported};
ghost use Rattle.alloc_set.specs.Ledger as set;
ghost use Rattle.chunk_header.specs.declared.TheConstants.{LARGEST, LEAST_BLOCK};

use addr_space::{Addr, Space};
use alloc_set::{AllocSet, SetBoxes};
use bump_ctx::BumpCtx;
use chunk_header::{CtxError, LARGEST_BLOCK, Sizes, Stats};
use generation_ctx::GenerationCtx;
use slab_ctx::SlabCtx;
use std::alloc::Global;

/// The kinds of contexts, with the sizes of their blocks.
#[derive(Clone, Copy, PartialEq, Eq, Debug)]
pub enum CtxKind {
    /// An AllocSet whose first block has 8,192 bytes and whose greatest has 8,388,608.
    Default,
    /// An AllocSet for little: 1,024 and 8,192 bytes.
    Small,
    /// The AllocSet that errors are made in: 8,192 bytes each.
    Error,
    /// The AllocSet that transactions abort in: 32,768 bytes each.
    Abort,
    /// A Slab with chunks of this size, from 1 to 1,024 bytes.
    Slab(u32),
    /// A Generation: 8,192 and 8,388,608 bytes.
    Generation,
    /// A Bump: 8,192 and 8,388,608 bytes.
    Bump,
}

/// The size of the first block of most contexts, in bytes: PostgreSQL's `ALLOCSET_DEFAULT_INITSIZE` (memutils.h).
const DEFAULT_INIT: u32 = 8192;

/// The size of the first block of a context for little, in bytes: PostgreSQL's `ALLOCSET_SMALL_INITSIZE`.
const SMALL_INIT: u32 = 1024;

/// What the size of its blocks doubles up to: PostgreSQL's `ALLOCSET_SMALL_MAXSIZE`.
const SMALL_MAX: u32 = 8192;

/// The size of each block of the context that errors are made in: PostgreSQL's `MemoryContextInit` (mcxt.c).
const ERROR_BLOCK: u32 = 8192;

/// The size of each block of the context that transactions abort in: PostgreSQL's `AtStart_Memory` (xact.c).
const ABORT_BLOCK: u32 = 32_768;

/// The blocks of a context whose first one has 8,192 bytes and whose greatest has 8,388,608.
const GREAT: Sizes = Sizes {
    init: DEFAULT_INIT,
    max: LARGEST_BLOCK,
};

/// A memory context of one of the kinds.
#[derive(Drop)]
pub enum AnyCtx {
    /// Chunks by class, kept when they are freed.
    AllocSet(AllocSet),
    /// Chunks of one size.
    Slab(SlabCtx),
    /// Chunks that live about as long as their neighbours.
    Generation(GenerationCtx),
    /// Chunks without headers that are never freed.
    Bump(BumpCtx),
}

// An AllocSet whose blocks have these sizes.
fn set_of(
    alloc: Global,
    boxes: &mut SetBoxes,
    space: &mut Space,
    account: u8,
    context: u32,
    sizes: Sizes,
) -> Result<AnyCtx, CtxError>
    requires account { account < accounts space.old }
    requires least { LEAST_BLOCK ≤ sizes.init }
    requires order { sizes.init ≤ sizes.max }
    requires most { sizes.max ≤ LARGEST_BLOCK }
    requires whole_init { sizes.init % 8 ≡ 0 }
    requires whole_max { sizes.max % 8 ≡ 0 }
    ensures ledger { IfOk result (λ a. ledger a ≡ OfSet (set.created sizes.init sizes.max)) }
    ensures account { IfOk result (λ a. (footprint a).account ≡ account) }
    ensures context { IfOk result (λ a. (footprint a).context ≡ context) }
    ensures place { IfOk result (λ a. (at : Addr) → place_at a at ≡ None) }
    ensures live { IfOk result (λ a. (at : Addr) → (footprint a).live at ≡ None) }
    ensures moves { IfOk result (λ a. Moves (nothing account context) (footprint a) space.old space.new) }
    ensures asked { OnOk result (Asks account sizes.init space.old space.new) }
    ensures no_space { (result ≡ Err CtxError.NoSpace) ↔ (space.old.limit < held space.old account + sizes.init) }
    ensures no_other { IfErr result (λ e. (e ≡ CtxError.NoSpace) ⊎ (e ≡ CtxError.Memory)) }
    ensures err_space { OnErr result (space.new ≡ space.old) }
{
    let set = AllocSet::create(alloc, boxes, space, account, context, sizes)?;
    Ok(AnyCtx::AllocSet(set))
}

impl AnyCtx {
    /// A context of a kind, for an account of the space: `AllocSetContextCreate`, `SlabContextCreate`,
    /// `GenerationContextCreate` or `BumpContextCreate`. `context` is the number that its blocks keep.
    ///
    /// `NoSpace` comes where the first block doesn't fit, or the first region of a Slab, and before `Memory`. A
    /// refused call changes nothing.
    pub fn create(
        alloc: Global,
        boxes: &mut SetBoxes,
        space: &mut Space,
        account: u8,
        context: u32,
        kind: CtxKind,
    ) -> Result<AnyCtx, CtxError>
        requires account { account < accounts space.old }
        requires slab { IsSlabSize kind }
        ensures ledger { IfOk result (λ a. ledger a ≡ created kind) }
        ensures account { IfOk result (λ a. (footprint a).account ≡ account) }
        ensures context { IfOk result (λ a. (footprint a).context ≡ context) }
        ensures place { IfOk result (λ a. (at : Addr) → place_at a at ≡ None) }
        ensures live { IfOk result (λ a. (at : Addr) → (footprint a).live at ≡ None) }
        ensures moves { IfOk result (λ a. Moves (nothing account context) (footprint a) space.old space.new) }
        ensures asked { OnOk result (Asks account (first_size kind) space.old space.new) }
        ensures no_space { (result ≡ Err CtxError.NoSpace) ↔ (space.old.limit < held space.old account + first_size kind) }
        ensures no_other { IfErr result (λ e. (e ≡ CtxError.NoSpace) ⊎ (e ≡ CtxError.Memory)) }
        ensures err_space { OnErr result (space.new ≡ space.old) }
    {
        let small = Sizes {
            init: SMALL_INIT,
            max: SMALL_MAX,
        };
        let error = Sizes {
            init: ERROR_BLOCK,
            max: ERROR_BLOCK,
        };
        let abort = Sizes {
            init: ABORT_BLOCK,
            max: ABORT_BLOCK,
        };
        match kind {
            CtxKind::Default => set_of(alloc, boxes, space, account, context, GREAT),
            CtxKind::Small => set_of(alloc, boxes, space, account, context, small),
            CtxKind::Error => set_of(alloc, boxes, space, account, context, error),
            CtxKind::Abort => set_of(alloc, boxes, space, account, context, abort),
            CtxKind::Slab(size) => Ok(AnyCtx::Slab(SlabCtx::create(
                alloc, space, account, context, size,
            )?)),
            CtxKind::Generation => Ok(AnyCtx::Generation(GenerationCtx::create(
                alloc, space, account, context, GREAT,
            )?)),
            CtxKind::Bump => Ok(AnyCtx::Bump(BumpCtx::create(
                alloc, space, account, context, GREAT,
            )?)),
        }
    }

    /// Takes a chunk of `size` bytes, which may be 0, and answers its address: `MemoryContextAlloc` of PostgreSQL's
    /// mcxt.c.
    ///
    /// `TooBig`, where `size` is over `LARGEST`, and `WrongSize`, where a Slab has chunks of another size, come
    /// before `NoSpace`; `Memory` may come in place of `NoSpace`. A refused call changes nothing.
    pub fn alloc(&mut self, space: &mut Space, size: u64) -> Result<Addr, CtxError>
        requires { Agrees (footprint self.old) space.old }

        // The ledger makes its step for the request, and answers the chunk's place and the bytes asked; every other
        // chunk keeps its place. It refuses where the call does, but for want of memory.
        ensures taken { IfOk result (λ at. Takes self.old self.new size at space.old space.new) }
        ensures refused { IfErr result (λ e. (e ≡ CtxError.Memory) ⊎ (take_in self.old space.old size ≡ Err e)) }
        ensures too_big { (result ≡ Err CtxError.TooBig) ↔ (LARGEST < size) }
        ensures wrong_size { (result ≡ Err CtxError.WrongSize) ↔ IsWrongSize self.old space.old size }

        // The chunk was not live, and every other chunk keeps its size.
        ensures fresh { IfOk result (λ at. (footprint self.old).live at ≡ None) }
        ensures live { IfOk result (λ at. PutsLive (footprint self.old) (footprint self.new) at (Some size)) }
        ensures aligned { IfOk result (λ at. at.offset % 8 ≡ 0) }
        ensures moves { Moves (footprint self.old) (footprint self.new) space.old space.new }
        ensures keeps { Keeps (footprint self.old) (footprint self.new) space.old space.new }

        ensures err { OnErr result (self.new ≡ self.old) }
        ensures err_space { OnErr result (space.new ≡ space.old) }
    {
        match self {
            AnyCtx::AllocSet(set) => set.alloc(space, size),
            AnyCtx::Slab(slab) => slab.alloc(space, size),
            AnyCtx::Generation(generation) => generation.alloc(space, size),
            AnyCtx::Bump(bump) => bump.alloc(space, size),
        }
    }

    /// Frees a live chunk: `pfree`. It takes no memory.
    ///
    /// The answer is `Unsupported` exactly in a Bump, and nothing changes then.
    pub fn free(&mut self, space: &mut Space, at: Addr) -> Result<(), CtxError>
        requires agrees { Agrees (footprint self.old) space.old }
        requires live { IsSome ((footprint self.old).live at) }

        // The ledger makes its step for the chunk's place, and every other chunk keeps its place. It refuses where the
        // call does.
        ensures given { OnOk result (IfSome (place_at self.old at) (λ place. give (ledger self.old) place ≡ Ok (ledger self.new))) }
        ensures refused { IfErr result (λ e. IfSome (place_at self.old at) (λ place. give (ledger self.old) place ≡ Err e)) }
        ensures place { OnOk result (PutsAt (place_at self.old) (place_at self.new) at None) }
        ensures unsupported { (result ≡ Err CtxError.Unsupported) ↔ IsBump (ledger self.old) }
        ensures no_other { IfErr result (λ e. e ≡ CtxError.Unsupported) }

        ensures live { OnOk result (PutsLive (footprint self.old) (footprint self.new) at None) }
        ensures moves { Moves (footprint self.old) (footprint self.new) space.old space.new }
        ensures keeps { Keeps (footprint self.old) (footprint self.new) space.old space.new }
        ensures asked { Asks (footprint self.old).account 0 space.old space.new }
        ensures err { OnErr result (self.new ≡ self.old) }
        ensures err_space { OnErr result (space.new ≡ space.old) }
    {
        match self {
            AnyCtx::AllocSet(set) => set.free(space, at),
            AnyCtx::Slab(slab) => slab.free(space, at),
            AnyCtx::Generation(generation) => generation.free(space, at),
            AnyCtx::Bump(bump) => bump.free(space, at),
        }
    }

    /// What the context holds: the `stats` method of PostgreSQL's contexts, as `MemoryContextStats` calls it.
    pub fn stats(&self) -> Stats
        ensures stats { result ≡ stats (ledger self.now) }
        ensures total { (footprint self.now).total ≡ result.total }
    {
        match self {
            AnyCtx::AllocSet(set) => set.stats(),
            AnyCtx::Slab(slab) => slab.stats(),
            AnyCtx::Generation(generation) => generation.stats(),
            AnyCtx::Bump(bump) => bump.stats(),
        }
    }

    /// What the context's regions have in all is what `stats` counts as their bytes. A caller cites the clause.
    pub fn counted(&self)
        ensures { (footprint self.now).total ≡ (stats (ledger self.now)).total }
    {
        match self {
            AnyCtx::AllocSet(set) => set.counted(),
            AnyCtx::Slab(slab) => slab.counted(),
            AnyCtx::Generation(generation) => generation.counted(),
            AnyCtx::Bump(bump) => bump.counted(),
        }
    }

    /// Frees all chunks: `MemoryContextReset` of a context without children. All blocks but the first go back to the
    /// space, and the ledger is that of a new context. It takes no memory.
    pub fn reset(&mut self, space: &mut Space)
        requires { Agrees (footprint self.old) space.old }
        ensures ledger { ledger self.new ≡ reset (ledger self.old) }
        ensures place { (at : Addr) → place_at self.new at ≡ None }
        ensures live { (at : Addr) → (footprint self.new).live at ≡ None }
        ensures moves { Moves (footprint self.old) (footprint self.new) space.old space.new }
        ensures asked { Asks (footprint self.old).account 0 space.old space.new }
    {
        match self {
            AnyCtx::AllocSet(set) => set.reset(space),
            AnyCtx::Slab(slab) => slab.reset(space),
            AnyCtx::Generation(generation) => generation.reset(space),
            AnyCtx::Bump(bump) => bump.reset(space),
        }
    }

    /// Gives all blocks back: `MemoryContextDelete` of a context without children. It takes no memory.
    pub fn discard(self, space: &mut Space, boxes: &mut SetBoxes)
        requires { Agrees (footprint self) space.old }
        ensures moves { Moves (footprint self) (nothing (footprint self).account (footprint self).context) space.old space.new }
        ensures asked { Asks (footprint self).account 0 space.old space.new }
    {
        match self {
            AnyCtx::AllocSet(set) => set.discard(space, boxes),
            AnyCtx::Slab(slab) => slab.discard(space),
            AnyCtx::Generation(generation) => generation.discard(space),
            AnyCtx::Bump(bump) => bump.discard(space),
        }
    }

    /// Each live chunk of a context that isn't a Bump has a header that leads to its block, and so to the context, and
    /// says what the chunk takes: the laws that `owner_of` and `chunk_space` stand on. A caller cites the clauses.
    pub fn headed(&self)
        requires { ¬ (IsBump (ledger self.now)) }
        ensures headed { AllHeaded (footprint self.now) }
        ensures kinds { AllOfKind (kind_of self.now) (footprint self.now) }
        ensures spaces { (at : Addr) (place : Place) (n : ℕ) → place_at self.now at ≡ Some place → chunk_bytes (ledger self.now) place ≡ Some n → TakesSpace (footprint self.now) at n }
    {
        match self {
            AnyCtx::AllocSet(set) => set.headed(),
            AnyCtx::Slab(slab) => slab.headed(),
            AnyCtx::Generation(generation) => generation.headed(),
            AnyCtx::Bump(_) => {}
        }
    }

    /// The address of each live chunk is a multiple of 8: PostgreSQL's `MAXALIGN`. A caller cites the clause.
    pub fn aligned(&self)
        ensures { (at : Addr) (size : ℕ) → (footprint self.now).live at ≡ Some size → at.offset % 8 ≡ 0 }
    {
        match self {
            AnyCtx::AllocSet(set) => set.aligned(),
            AnyCtx::Slab(slab) => slab.aligned(),
            AnyCtx::Generation(generation) => generation.aligned(),
            AnyCtx::Bump(bump) => bump.aligned(),
        }
    }

    /// Gives a live chunk a size of `size` bytes, which may be 0, and answers where it is now: `repalloc`. `keep` is how
    /// many of its first bytes are known; they are kept, as far as the new size goes.
    ///
    /// `TooBig`, where `size` is over `LARGEST`, comes before `Unsupported`, which a Bump answers, and a Slab to
    /// another size, and that before `NoSpace`; `Memory` may come in place of `NoSpace`. A refused call changes nothing.
    pub fn realloc(
        &mut self,
        space: &mut Space,
        at: Addr,
        keep: u64,
        size: u64,
    ) -> Result<Addr, CtxError>
        requires agrees { Agrees (footprint self.old) space.old }
        requires live { IsSome ((footprint self.old).live at) }
        requires keep { IfSome ((footprint self.old).live at) (λ n. keep ≤ n) }
        requires known { IsKnown space.old at keep }

        // The ledger makes its step for the chunk's place, and answers the new place, the bytes asked, and whether the
        // chunk keeps its address; every other chunk keeps its place. It refuses where the call does, but for want of
        // memory.
        ensures resized { IfOk result (λ to. IfSome (place_at self.old at) (λ place. Resizes self.old self.new place size at to space.old space.new)) }
        ensures refused { IfErr result (λ e. (e ≡ CtxError.Memory) ⊎ IfSome (place_at self.old at) (λ place. resize_in self.old space.old place size ≡ Err e)) }
        ensures too_big { (result ≡ Err CtxError.TooBig) ↔ (LARGEST < size) }
        ensures unsupported { IfSome (place_at self.old at) (λ place. (result ≡ Err CtxError.Unsupported) ↔ IsUnsupported self.old space.old place size) }

        // Where the chunk is at another address, none was live there, and the old address has none. Its first bytes are
        // those that were known.
        ensures fresh { IfOk result (λ to. to ≢ at → (footprint self.old).live to ≡ None) }
        ensures live { IfOk result (λ to. MovesLive (footprint self.old) (footprint self.new) at to size) }
        ensures aligned { IfOk result (λ to. to.offset % 8 ≡ 0) }
        ensures bytes { IfOk result (λ to. HasBytesOf space.old space.new at to (min keep size)) }
        ensures known { IfOk result (λ to. IsKnown space.new to (min keep size)) }
        ensures moves { Moves (footprint self.old) (footprint self.new) space.old space.new }
        ensures keeps { KeepsBut at (footprint self.old) (footprint self.new) space.old space.new }

        ensures err { OnErr result (self.new ≡ self.old) }
        ensures err_space { OnErr result (space.new ≡ space.old) }
    {
        match self {
            AnyCtx::AllocSet(set) => set.realloc(space, at, keep, size),
            AnyCtx::Slab(slab) => slab.realloc(space, at, keep, size),
            AnyCtx::Generation(generation) => generation.realloc(space, at, keep, size),
            AnyCtx::Bump(bump) => bump.realloc(space, at, keep, size),
        }
    }
}
