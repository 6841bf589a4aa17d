//! One memory context.
ghost use Rattle.std.specs.Prelude.{◌≡◌, [], ◌≢◌, ◌⊎◌, ◌∷◌, true, false, None, Some, OnOk, OnErr, IfOk, IfErr, unwrap_or, nat_lt, ◌||◌, ◌+◌, ◌++◌, ◌≤◌, ℕ, List, length};
ghost use Rattle.std.specs.HashMap.{get};
ghost use Rattle.addr_space.specs.Footprint.{Agrees};
ghost use Rattle.any_ctx.specs.Contexts.{footprint, ledger, place_at};
ghost use Rattle.any_ctx.specs.Calls.{take_in};
ghost use Rattle.context_rules.specs.Chunks.{zeros};
ghost use Rattle.context_rules.specs.Refusals.{refusal, where_so};
ghost use Rattle.any_ctx.specs.Ledgers.{give, resize, stats, InSlab};
ghost use Rattle.addr_space.specs.Space.{Asks, IsKnown, held};
ghost use Rattle.context_node.specs.declared.entry.Entry.{Entry as Chunk};
ghost use Rattle.reset_callbacks.specs.Hook.{AreDistinct};
ghost use Rattle.reset_callbacks.specs.ShelfState.{held as on_shelf};
ghost use Rattle.context_rules.specs.Ends.{callbacks};
ghost use Rattle.context_node.specs.Soundness.{same, IsSoundContext};
ghost use Rattle.context_node.specs.Making.{made_with};
ghost use Rattle.context_node.specs.Chunking.{taken_entry, Took, Freed, Written, Refitted};
ghost use Rattle.context_node.specs.Ending.{Cleared, Gone, without_context};
ghost use Rattle.forest.specs.Forest.{at, has};

use crate::chunk_id::ChunkId;
use crate::chunks::Chunks;
use crate::ending::forget_context;
use crate::entry::Entry;
use crate::making::NewContext;
use crate::running::{HooksRan, run_all};
use crate::zeros::write_zeros;
use addr_space::{Addr, Space};
use any_ctx::{AnyCtx, CtxKind, SetBoxes};
use chunk_header::{CtxError, Stats};
use context_rules::TreeError;
use forest::NodeId;
use pgs_step::{CtxId, Emit, Name, What};
use reset_callbacks::{Pending, ResetHook, Shelf};
use std::alloc::Global;
use std::collections::HashMap;
use std::marker::Model;

/// A context, with its allocator, its chunks and the hooks that wait on it.
#[derive(Drop)]
pub struct Node<H: ResetHook> {
    pub(crate) name: Name,
    pub(crate) kind: CtxKind,
    pub(crate) protected: bool,
    pub(crate) used: bool,
    pub(crate) memory: AnyCtx,
    pub(crate) chunks: Chunks,
    pub(crate) callbacks: Pending<H>,
}

impl<H: ResetHook> Model for Node<H> {
    ghost use Rattle.context_node.specs.Kept.{Kept};

    ghost Value = { Kept };

    ghost use Rattle.context_node.specs.Code.{kept_code};

    ghost coded = { kept_code };

    ghost view = { λ n. record {
      name = n.name;
      kind = n.kind;
      protected = n.protected;
      used = n.used;
      memory = n.memory;
      chunks = n.chunks.forest;
      chunk_places = n.chunks.places;
      hooks = n.callbacks;
    } };
}

impl<H: ResetHook> Node<H> {
    /// A context that holds nothing yet, over the memory that was taken for it.
    #[inline(always)]
    pub fn over(alloc: Global, memory: AnyCtx, new: &NewContext) -> Node<H>
        ensures { result ≡ made_with new.now memory }
    {
        Node {
            name: new.name,
            kind: new.kind,
            protected: new.protected,
            used: false,
            memory,
            chunks: Chunks::new(alloc),
            callbacks: Pending::new(alloc),
        }
    }

    /// Its name.
    pub fn name(&self) -> Name
        ensures { result ≡ self.now.name }
    {
        self.name
    }

    /// Whether it is one of the session's own.
    pub fn is_protected(&self) -> bool
        ensures { result ≡ self.now.protected }
    {
        self.protected
    }

    /// Whether something was done with it since it was made or reset.
    pub fn is_used(&self) -> bool
        ensures { result ≡ self.now.used }
    {
        self.used
    }

    /// Takes its name out of the map, unless it is protected.
    #[inline(always)]
    pub fn forget_name(&self, names: &mut HashMap<Name, CtxId>)
        ensures { (w : List ℕ) → get same names.new w ≡ without_context self.now.protected self.now.name (get same names.old) w }
    {
        forget_context(names, self.protected, &self.name);
    }

    /// What it holds, as its allocator counts.
    pub fn stats(&self) -> Stats
        ensures { result ≡ stats (ledger self.now.memory) }
    {
        self.memory.stats()
    }

    /// A hook waits, as the newest, or is handed back for want of memory.
    pub fn register(&mut self, hook: H) -> Result<(), H>
        ensures ok { OnOk result (self.new ≡ record self.old { used = true; hooks = H.hook_meaning hook ∷ self.old.hooks }) }
        ensures handed_back { IfErr result (λ back. back ≡ hook) }
        ensures err { OnErr result (self.new ≡ self.old) }
    {
        self.callbacks.push(hook)?;
        self.used = true;
        Ok(())
    }

    /// A chunk.
    pub fn entry(&self, entry: NodeId) -> Entry
        requires { at entry.number self.now.chunk_places ≡ Some entry.slot }
        ensures { at entry.number self.now.chunks ≡ Some result }
    {
        *self.chunks.get(entry)
    }

    /// Takes a chunk, whose bytes aren't known; its entry is the first one. `Ctx` comes with the allocator's refusal. The
    /// slot that is answered means nothing where the chunk has no name.
    pub fn alloc(
        &mut self,
        space: &mut Space,
        number: u64,
        name: Option<Name>,
        size: u64,
    ) -> Result<NodeId, TreeError>
        requires agrees { Agrees (footprint self.old.memory) space.old }
        requires fresh { has number self.old.chunks ≡ false }
        requires unplaced { has number self.old.chunk_places ≡ false }
        ensures number { IfOk result (λ id. id.number ≡ number) }
        ensures took { IfOk result (λ id. Took self.old self.new number id.slot name size [] space.old space.new) }
        ensures refused { IfErr result (λ e. (e ≡ TreeError.Memory) ⊎ (refusal (take_in self.old.memory space.old size) ≡ Some e)) }
        ensures err { OnErr result (self.new ≡ self.old) }
        ensures err_space { OnErr result (space.new ≡ space.old) }
    {
        match name {
            Some(word) => self.take_named(space, number, word, size),
            None => {
                self.take_nameless(space, number, size)?;
                Ok(NodeId { number, slot: 0 })
            }
        }
    }

    /// Takes a chunk, whose bytes are all known and 0, likewise.
    pub fn alloc0(
        &mut self,
        space: &mut Space,
        number: u64,
        name: Option<Name>,
        size: u64,
    ) -> Result<NodeId, TreeError>
        requires agrees { Agrees (footprint self.old.memory) space.old }
        requires fresh { has number self.old.chunks ≡ false }
        requires unplaced { has number self.old.chunk_places ≡ false }
        ensures number { IfOk result (λ id. id.number ≡ number) }
        ensures took { IfOk result (λ id. Took self.old self.new number id.slot name size (zeros size) space.old space.new) }
        ensures refused { IfErr result (λ e. (e ≡ TreeError.Memory) ⊎ (refusal (take_in self.old.memory space.old size) ≡ Some e)) }
        ensures err { OnErr result (self.new ≡ self.old) }
        ensures err_space { OnErr result (space.new ≡ space.old) }
    {
        match name {
            Some(word) => {
                let id = self.take_named(space, number, word, size)?;
                let at = self.chunks.get(id).at;
                write_zeros(space, at, size);
                self.chunks.set(id, at, size, size);
                Ok(id)
            }
            None => {
                let at = self.take_nameless(space, number, size)?;
                write_zeros(space, at, size);
                self.chunks.set_nameless(number, &nameless(at, size, size));
                Ok(NodeId { number, slot: 0 })
            }
        }
    }

    // Takes a chunk with a name.
    fn take_named(
        &mut self,
        space: &mut Space,
        number: u64,
        word: Name,
        size: u64,
    ) -> Result<NodeId, TreeError>
        requires agrees { Agrees (footprint self.old.memory) space.old }
        requires fresh { has number self.old.chunks ≡ false }
        requires unplaced { has number self.old.chunk_places ≡ false }
        ensures number { IfOk result (λ id. id.number ≡ number) }
        ensures took { IfOk result (λ id. Took self.old self.new number id.slot (Some word) size [] space.old space.new) }
        ensures refused { IfErr result (λ e. (e ≡ TreeError.Memory) ⊎ (refusal (take_in self.old.memory space.old size) ≡ Some e)) }
        ensures err { OnErr result (self.new ≡ self.old) }
        ensures err_space { OnErr result (space.new ≡ space.old) }
    {
        let id = self.chunks.put(number, word, size)?;
        match self.memory.alloc(space, size) {
            Ok(at) => {
                self.chunks.set(id, at, size, 0);
                self.used = true;
                self.memory.counted();
                Ok(id)
            }
            Err(error) => {
                self.chunks.remove(id);
                Err(told(error))
            }
        }
    }

    // Takes a chunk without a name, and answers its address.
    #[inline(always)]
    fn take_nameless(
        &mut self,
        space: &mut Space,
        number: u64,
        size: u64,
    ) -> Result<Addr, TreeError>
        requires agrees { Agrees (footprint self.old.memory) space.old }
        requires fresh { has number self.old.chunks ≡ false }
        ensures took { IfOk result (λ at. (took : Took self.old self.new number 0 None size [] space.old space.new) × (took.at ≡ at)) }
        ensures refused { IfErr result (λ e. (e ≡ TreeError.Memory) ⊎ (refusal (take_in self.old.memory space.old size) ≡ Some e)) }
        ensures err { OnErr result (self.new ≡ self.old) }
        ensures err_space { OnErr result (space.new ≡ space.old) }
    {
        match self.memory.alloc(space, size) {
            Ok(at) => {
                self.chunks.put_nameless(number, &nameless(at, size, 0));
                self.used = true;
                self.memory.counted();
                Ok(at)
            }
            Err(error) => Err(told(error)),
        }
    }

    /// Frees a chunk. `Ctx(Unsupported)` comes in a Bump.
    pub fn free(&mut self, space: &mut Space, entry: NodeId) -> Result<(), TreeError>
        requires agrees { Agrees (footprint self.old.memory) space.old }
        requires sound { IsSoundContext self.old }
        requires placed { at entry.number self.old.chunk_places ≡ Some entry.slot }
        ensures freed { OnOk result (Freed self.old self.new entry.number space.old space.new) }
        ensures refused { IfErr result (λ e. (c : Chunk) → at entry.number self.old.chunks ≡ Some c → refusal (give (ledger self.old.memory) (unwrap_or (place_at self.old.memory c.at) (InSlab 0))) ≡ Some e) }
        ensures asked { Asks (footprint self.old.memory).account 0 space.old space.new }
        ensures err { OnErr result (self.new ≡ self.old) }
        ensures err_space { OnErr result (space.new ≡ space.old) }
    {
        let at = self.chunks.get(entry).at;
        if let Err(error) = self.memory.free(space, at) {
            return Err(TreeError::Ctx(error));
        }
        self.chunks.remove(entry);
        self.memory.counted();
        Ok(())
    }

    /// Writes bytes into a chunk, from a place on. `Range` comes where the place is behind the known bytes, or the bytes
    /// would end behind the chunk.
    pub fn put(
        &mut self,
        space: &mut Space,
        entry: NodeId,
        place: u64,
        bytes: &[u8],
    ) -> Result<(), TreeError>
        requires agrees { Agrees (footprint self.old.memory) space.old }
        requires sound { IsSoundContext self.old }
        requires placed { at entry.number self.old.chunk_places ≡ Some entry.slot }
        ensures written { OnOk result (Written self.old self.new entry.number place bytes.now space.old space.new) }
        ensures taken { space.new.taken ≡ space.old.taken }
        ensures refused { IfErr result (λ e. (c : Chunk) → at entry.number self.old.chunks ≡ Some c → where_so (nat_lt c.known place || nat_lt c.size (place + length bytes.now)) TreeError.Range ≡ Some e) }
        ensures err { OnErr result (self.new ≡ self.old) }
        ensures err_space { OnErr result (space.new ≡ space.old) }
    {
        let chunk = self.entry(entry);
        let Some(at) = chunk.room_at(place, bytes.len()) else {
            return Err(TreeError::Range);
        };
        space.write(at, bytes);
        let known = chunk.known.max(place + bytes.len() as u64);
        self.chunks.set(entry, chunk.at, chunk.size, known);
        Ok(())
    }

    /// Gives a chunk another size, and keeps its known bytes as far as that goes. `Ctx` comes with the allocator's
    /// refusal.
    pub fn realloc(&mut self, space: &mut Space, entry: NodeId, size: u64) -> Result<(), TreeError>
        requires agrees { Agrees (footprint self.old.memory) space.old }
        requires sound { IsSoundContext self.old }
        requires placed { at entry.number self.old.chunk_places ≡ Some entry.slot }
        requires known { (c : Chunk) → at entry.number self.old.chunks ≡ Some c → IsKnown space.old c.at c.known }
        ensures refitted { OnOk result (Refitted self.old self.new entry.number size space.old space.new) }
        ensures refused { IfErr result (λ e. (e ≡ TreeError.Memory) ⊎ ((c : Chunk) → at entry.number self.old.chunks ≡ Some c → refusal (resize (ledger self.old.memory) (held space.old (footprint self.old.memory).account) space.old.limit (unwrap_or (place_at self.old.memory c.at) (InSlab 0)) size) ≡ Some e)) }
        ensures err { OnErr result (self.new ≡ self.old) }
        ensures err_space { OnErr result (space.new ≡ space.old) }
    {
        let chunk = self.entry(entry);
        match self.memory.realloc(space, chunk.at, chunk.known, size) {
            Ok(to) => {
                self.chunks.set(entry, to, size, chunk.known.min(size));
                self.memory.counted();
                Ok(())
            }
            Err(error) => Err(told(error)),
        }
    }

    /// Resets the context: its hooks run, the newest first, and then its chunks go, with their names. While the hooks run,
    /// the space has all that it had (`ran`).
    pub fn reset<E: Emit>(
        &mut self,
        space: &mut Space,
        shelf: &mut Shelf<H>,
        names: &mut HashMap<Name, ChunkId>,
        number: u64,
        out: &mut E,
    ) -> HooksRan
        requires agrees { Agrees (footprint self.old.memory) space.old }
        requires sound { IsSoundContext self.old }
        requires count { length self.old.hooks ≤ shelf.old.out }
        requires words { AreDistinct (self.old.hooks ++ on_shelf shelf.old) }
        ensures cleared { Cleared self.old self.new space.old space.new shelf.old shelf.new (get same names.old) (get same names.new) }
        ensures ran { result.ran ≡ record { hooks = self.old.hooks; space = space.old } }
        ensures emits { E.emits out.old (callbacks number self.old.hooks ++ What.Reset number ∷ []) out.new }
    {
        let ran = run_all(&mut self.callbacks, shelf, number, space, out);
        self.chunks.forget(names);
        self.memory.reset(space);
        self.memory.counted();
        self.used = false;
        out.emit(What::Reset(number));
        ran
    }

    /// The context goes: its hooks run, the newest first, and then its chunks go, with their names, and its blocks are
    /// given back. While the hooks run, the space has all that it had (`ran`).
    pub fn end<E: Emit>(
        self,
        space: &mut Space,
        boxes: &mut SetBoxes,
        shelf: &mut Shelf<H>,
        names: &mut HashMap<Name, ChunkId>,
        number: u64,
        out: &mut E,
    ) -> HooksRan
        requires agrees { Agrees (footprint self.memory) space.old }
        requires sound { IsSoundContext self }
        requires count { length self.hooks ≤ shelf.old.out }
        requires words { AreDistinct (self.hooks ++ on_shelf shelf.old) }
        ensures went { Gone self space.old space.new shelf.old shelf.new (get same names.old) (get same names.new) }
        ensures ran { result.ran ≡ record { hooks = self.hooks; space = space.old } }
        ensures emits { E.emits out.old (callbacks number self.hooks) out.new }
    {
        let Node {
            memory,
            mut chunks,
            mut callbacks,
            ..
        } = self;
        let ran = run_all(&mut callbacks, shelf, number, space, out);
        chunks.forget(names);
        memory.discard(space, boxes);
        ran
    }
}

/// An allocator's refusal, as callers are told it.
pub fn told(error: CtxError) -> TreeError
    ensures { (result ≡ TreeError.Memory) ⊎ ((error ≢ CtxError.Memory) × (result ≡ TreeError.Ctx error)) }
{
    match error {
        CtxError::Memory => TreeError::Memory,
        other => TreeError::Ctx(other),
    }
}

// What a chunk without a name is.
#[inline(always)]
fn nameless(at: Addr, size: u64, known: u64) -> Entry
    ensures { result ≡ taken_entry None at size known }
{
    Entry {
        name: None,
        at,
        size,
        known,
    }
}
