//! The chunks of a session's contexts.
ghost use Rattle.std.specs.Prelude.{◌≡◌, ◌⊎◌, ℕ, ◌+◌, ◌≤◌, List, map, length, true, false, Some, None, IfErr, IfSome, IsSome, OnOk, OnErr};
ghost use Rattle.addr_space.specs.Space.{Space, Asks, HasBytes, Changes, region_at, overwritten};
ghost use Rattle.reset_callbacks.specs.ShelfState.{ShelfState};
ghost use Rattle.context_rules.specs.Contexts.{found};
ghost use Rattle.context_rules.specs.Chunks.{asked, freed, resized_asked, shown, written};
ghost use Rattle.context_rules.specs.Refusals as refusals;
ghost use Rattle.context_rules.specs.Refusals.{alloc_refusal, bytes_refusal, free_refusal, put_refusal, realloc_refusal};
ghost use Rattle.context_tree.specs.State.{IsLive, error_of};
ghost use Rattle.session_rules.specs.Taking.{chunk_resized, memory_taken};
ghost use Rattle.session_rules.specs.Parts.{contexts_become};
ghost use Rattle.session_owners.specs.Commons.{CommonState};
ghost use Rattle.session_store.specs.State.{contexts_in, held_in, left_in};
ghost use Rattle.session_store.specs.Calls.{Acted, ContextsAlone, IsSilent, Keeps, Refused, StandsIn};

use crate::store::Store;
use addr_space::{Addr, Space};
use context_rules::TreeError;
use pgs_step::{CtxId, Name};
use reset_callbacks::ResetHook;

impl<H: ResetHook> Store<H> {
    /// Takes a chunk in the current context, whose bytes aren't known: `palloc`.
    ///
    /// `Taken` comes where its name stands, and then `Ctx` what the context's allocator answers; `Memory` may come in
    /// place of any of them.
    pub fn alloc(
        &mut self,
        space: &mut Space,
        chunk: Option<Name>,
        size: u64,
    ) -> Result<(), TreeError>
        requires keeps { Keeps self.old space.old }
        requires stands { (x : ShelfState) × ((c : CommonState) × StandsIn self.old space.old x c) }
        ensures acted { OnOk result ((x : ShelfState) (c : CommonState) → Acted (memory_taken chunk size false self.old.tree.current.number) self.old self.new space.old space.new x x c c IsSilent) }
        ensures alone { (c : CommonState) → ContextsAlone self.old self.new space.old space.new c c }
        ensures asked { OnOk result (Asks self.old.tree.account (asked self.old.tree.current.number (left_in self.old space.old) size (contexts_in self.old space.old)) space.old space.new) }
        ensures served { OnOk result (alloc_refusal self.old.tree.current.number (left_in self.old space.old) chunk size (contexts_in self.old space.old) ≡ None) }
        ensures cause { IfErr result (λ e. (e ≡ TreeError.Memory) ⊎ (alloc_refusal self.old.tree.current.number (left_in self.old space.old) chunk size (contexts_in self.old space.old) ≡ Some e)) }
        ensures refused { OnErr result ((x : ShelfState) (c : CommonState) → Refused self.old self.new space.old space.new x x c c) }
        ensures err_space { OnErr result (space.new ≡ space.old) }
    {
        let at = self.current();
        self.alloc_at(space, at, chunk, size)
    }

    /// Takes a chunk in a context, whose bytes aren't known: `MemoryContextAlloc`. The answers are those of `alloc`.
    #[inline(always)]
    pub fn alloc_at(
        &mut self,
        space: &mut Space,
        at: CtxId,
        chunk: Option<Name>,
        size: u64,
    ) -> Result<(), TreeError>
        requires keeps { Keeps self.old space.old }
        requires stands { (x : ShelfState) × ((c : CommonState) × StandsIn self.old space.old x c) }
        requires live { IsLive self.old.tree at }
        ensures acted { OnOk result ((x : ShelfState) (c : CommonState) → Acted (memory_taken chunk size false at.number) self.old self.new space.old space.new x x c c IsSilent) }
        ensures alone { (c : CommonState) → ContextsAlone self.old self.new space.old space.new c c }
        ensures asked { OnOk result (Asks self.old.tree.account (asked at.number (left_in self.old space.old) size (contexts_in self.old space.old)) space.old space.new) }
        ensures served { OnOk result (alloc_refusal at.number (left_in self.old space.old) chunk size (contexts_in self.old space.old) ≡ None) }
        ensures cause { IfErr result (λ e. (e ≡ TreeError.Memory) ⊎ (alloc_refusal at.number (left_in self.old space.old) chunk size (contexts_in self.old space.old) ≡ Some e)) }
        ensures refused { OnErr result ((x : ShelfState) (c : CommonState) → Refused self.old self.new space.old space.new x x c c) }
        ensures err_space { OnErr result (space.new ≡ space.old) }
    {
        self.tree.alloc(space, at, chunk, size)
    }

    /// Takes a chunk in the current context, whose bytes are all known and 0: `palloc0`. The answers are those of `alloc`.
    pub fn alloc_zeroed(
        &mut self,
        space: &mut Space,
        chunk: Option<Name>,
        size: u64,
    ) -> Result<(), TreeError>
        requires keeps { Keeps self.old space.old }
        requires stands { (x : ShelfState) × ((c : CommonState) × StandsIn self.old space.old x c) }
        ensures acted { OnOk result ((x : ShelfState) (c : CommonState) → Acted (memory_taken chunk size true self.old.tree.current.number) self.old self.new space.old space.new x x c c IsSilent) }
        ensures alone { (c : CommonState) → ContextsAlone self.old self.new space.old space.new c c }
        ensures asked { OnOk result (Asks self.old.tree.account (asked self.old.tree.current.number (left_in self.old space.old) size (contexts_in self.old space.old)) space.old space.new) }
        ensures served { OnOk result (alloc_refusal self.old.tree.current.number (left_in self.old space.old) chunk size (contexts_in self.old space.old) ≡ None) }
        ensures cause { IfErr result (λ e. (e ≡ TreeError.Memory) ⊎ (alloc_refusal self.old.tree.current.number (left_in self.old space.old) chunk size (contexts_in self.old space.old) ≡ Some e)) }
        ensures refused { OnErr result ((x : ShelfState) (c : CommonState) → Refused self.old self.new space.old space.new x x c c) }
        ensures err_space { OnErr result (space.new ≡ space.old) }
    {
        let at = self.tree.current();
        self.tree.alloc0(space, at, chunk, size)
    }

    /// Gives a chunk another size, and keeps its known bytes as far as that goes: `repalloc`.
    ///
    /// `NoName` comes where no chunk has the name, and then `Ctx` what the context's allocator answers; `Memory` may come
    /// in place of any of them.
    pub fn realloc(&mut self, space: &mut Space, chunk: &Name, size: u64) -> Result<(), TreeError>
        requires keeps { Keeps self.old space.old }
        requires stands { (x : ShelfState) × ((c : CommonState) × StandsIn self.old space.old x c) }
        ensures acted { OnOk result ((x : ShelfState) (c : CommonState) → Acted (chunk_resized chunk.now size) self.old self.new space.old space.new x x c c IsSilent) }
        ensures alone { (c : CommonState) → ContextsAlone self.old self.new space.old space.new c c }
        ensures asked { OnOk result (Asks self.old.tree.account (resized_asked (held_in self.old space.old) space.old.limit chunk.now size (contexts_in self.old space.old)) space.old space.new) }
        ensures served { OnOk result (realloc_refusal (held_in self.old space.old) space.old.limit chunk.now size (contexts_in self.old space.old) ≡ None) }
        ensures cause { IfErr result (λ e. (e ≡ TreeError.Memory) ⊎ (realloc_refusal (held_in self.old space.old) space.old.limit chunk.now size (contexts_in self.old space.old) ≡ Some e)) }
        ensures refused { OnErr result ((x : ShelfState) (c : CommonState) → Refused self.old self.new space.old space.new x x c c) }
        ensures err_space { OnErr result (space.new ≡ space.old) }
    {
        self.tree.realloc(space, chunk, size)
    }

    /// Frees a chunk: `pfree`.
    ///
    /// `NoName` comes where no chunk has the name, and `Ctx(Unsupported)` in a Bump.
    pub fn free(&mut self, space: &mut Space, chunk: &Name) -> Result<(), TreeError>
        requires keeps { Keeps self.old space.old }
        requires stands { (x : ShelfState) × ((c : CommonState) × StandsIn self.old space.old x c) }
        ensures answer { error_of result ≡ free_refusal chunk.now (contexts_in self.old space.old) }
        ensures acted { OnOk result ((x : ShelfState) (c : CommonState) → Acted (contexts_become (freed chunk.now)) self.old self.new space.old space.new x x c c IsSilent) }
        ensures alone { (c : CommonState) → ContextsAlone self.old self.new space.old space.new c c }
        ensures asked { Asks self.old.tree.account 0 space.old space.new }
        ensures refused { OnErr result ((x : ShelfState) (c : CommonState) → Refused self.old self.new space.old space.new x x c c) }
        ensures err_space { OnErr result (space.new ≡ space.old) }
    {
        self.tree.free(space, chunk)
    }

    /// Writes bytes into a chunk, from a place on. What is known of a chunk are its first bytes, so the place is among
    /// them or right behind them.
    ///
    /// `NoName` comes where no chunk has the name, and `Range` where the place is behind the known bytes, or the bytes
    /// would end behind the chunk.
    pub fn put(
        &mut self,
        space: &mut Space,
        chunk: &Name,
        at: u64,
        bytes: &[u8],
    ) -> Result<(), TreeError>
        requires keeps { Keeps self.old space.old }
        requires stands { (x : ShelfState) × ((c : CommonState) × StandsIn self.old space.old x c) }
        ensures answer { error_of result ≡ put_refusal chunk.now at (length bytes.now) (contexts_in self.old space.old) }
        ensures acted { OnOk result ((x : ShelfState) (c : CommonState) → Acted (contexts_become (written chunk.now at bytes.now)) self.old self.new space.old space.new x x c c IsSilent) }
        ensures alone { (c : CommonState) → ContextsAlone self.old self.new space.old space.new c c }
        ensures asked { Asks self.old.tree.account 0 space.old space.new }
        ensures refused { OnErr result ((x : ShelfState) (c : CommonState) → Refused self.old self.new space.old space.new x x c c) }
        ensures err_space { OnErr result (space.new ≡ space.old) }
    {
        self.tree.put(space, chunk, at, bytes)
    }

    /// Reads bytes of a chunk, from a place on: as many as `out` has.
    ///
    /// `NoName` comes where no chunk has the name, and `Range` where they would end behind the known bytes.
    pub fn show(
        &self,
        space: &Space,
        chunk: &Name,
        at: u64,
        out: &mut [u8],
    ) -> Result<(), TreeError>
        requires { Keeps self.now space.now }
        ensures answer { error_of result ≡ bytes_refusal chunk.now at (length out.old) (contexts_in self.now space.now) }
        ensures bytes { OnOk result (out.new ≡ shown chunk.now at (length out.old) (contexts_in self.now space.now)) }
        ensures err { OnErr result (out.new ≡ out.old) }
    {
        self.tree.bytes(space, chunk, at, out)
    }

    /// Whether a live chunk has this name.
    pub fn is_chunk(&self, space: &Space, name: &Name) -> bool
        requires { Keeps self.now space.now }
        ensures { result ≡ refusals.is_chunk (Some name.now) (contexts_in self.now space.now) }
    {
        self.tree.bytes(space, name, 0, &mut []).is_ok()
    }

    /// Where a live chunk is. The space has the chunk's known bytes there, and bytes that are written over them in the space
    /// are the chunk's.
    pub fn place(&self, chunk: &Name) -> Addr
        requires { (s : Space) × IsSome (found chunk.now (contexts_in self.now s)) }
        ensures known { (s : Space) → Keeps self.now s → IfSome (found chunk.now (contexts_in self.now s)) (λ f. HasBytes s result f.chunk.known) }
        ensures alone { (s t : Space) (offset : ℕ) (bytes : List ℕ) → Keeps self.now s → IfSome (found chunk.now (contexts_in self.now s)) (λ f. offset + length bytes ≤ length f.chunk.known) → Changes s t result.region (overwritten (region_at s result.region) (result.offset + offset) (map Some bytes)) → (c : CommonState) → ContextsAlone self.now self.now s t c c }
        ensures written { (s t : Space) (offset : ℕ) (bytes : List ℕ) → Keeps self.now s → IfSome (found chunk.now (contexts_in self.now s)) (λ f. offset + length bytes ≤ length f.chunk.known) → Changes s t result.region (overwritten (region_at s result.region) (result.offset + offset) (map Some bytes)) → (x : ShelfState) (c : CommonState) → Acted (contexts_become (written chunk.now offset bytes)) self.now self.now s t x x c c IsSilent }
    {
        self.tree.place(chunk)
    }
}
