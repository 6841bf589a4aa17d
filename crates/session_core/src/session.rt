//! A session, and how it starts.
ghost use Rattle.std.specs.Prelude.{◌≡◌, ◌⊎◌, ℕ, ◌+◌, ◌<◌, ◌≤◌, List, map, length, Some, [], IfOk, IfErr, IfSome, IsSome, OnOk, OnErr};
ghost use Rattle.addr_space.specs.Space.{Space, accounts, held, Asks, Changes, HasBytes, overwritten, region_at};
ghost use Rattle.reset_callbacks.specs.Hook.{AreDistinct};
ghost use Rattle.reset_callbacks.specs.ShelfState as shelf;
ghost use Rattle.reset_callbacks.specs.ShelfState.{ShelfState};
ghost use Rattle.context_rules.specs.Contexts.{found};
ghost use Rattle.context_rules.specs.Chunks.{shown, written};
ghost use Rattle.context_rules.specs.Refusals.{bytes_refusal};
ghost use Rattle.context_tree.specs.State.{Moves, SameRegions, error_of, no_contexts};
ghost use Rattle.session_rules.specs.Limits.{asked_at_opening, most_levels};
ghost use Rattle.session_rules.specs.State.{opening};
ghost use Rattle.session_rules.specs.Parts.{contexts_become};
ghost use Rattle.owner_kinds.specs.KindShelf.{table_of};
ghost use Rattle.owner_kinds.specs.KindTable.{IsSound};
ghost use Rattle.session_owners.specs.Commons.{CommonState};
ghost use Rattle.session_store.specs.State.{contexts_in, session_of};
ghost use Rattle.session_store.specs.Calls.{Acted, ContextsAlone, IsSilent, Keeps, StandsIn, StaysBeside};
ghost use Rattle.session_core.specs.Lines.{IsBetweenLines};
ghost use Rattle.session_core.specs.declared.session.StartError.TheVariants as start_error;
ghost use Rattle.session_commands.specs.declared.calls.Calls.{Calls};

use addr_space::{Addr, Space};
use context_rules::TreeError;
use pgs_step::Name;
use reset_callbacks::ResetHook;
use session_store::Store;
use std::alloc::Global;
use std::marker::Model;
use thiserror::Error;

/// One session of a backend: its memory contexts, its resource owners and its transaction.
///
/// Contracts see it as its store (session_store), and speak of the session of the rules that the store and its space stand for.
#[derive(Drop)]
pub struct Session<H: ResetHook> {
    pub(crate) store: Store<H>,
}

/// Why a session doesn't start.
#[derive(Clone, Copy, Debug, PartialEq, Eq, Error)]
pub enum StartError {
    /// Less than 65,536 bytes are left of the session's account.
    #[error("no space: less than a new session takes")]
    NoSpace,
    /// Memory was refused.
    #[error("no memory")]
    Memory,
}

impl<H: ResetHook> Model for Session<H> {
    ghost use Rattle.session_store.specs.State.{StoreState};

    ghost Value = { StoreState };

    ghost use Rattle.session_store.specs.StateCode.{store_code};

    ghost coded = { store_code };

    ghost view = { λ s. s.store };
}

impl<H: ResetHook> Session<H> {
    /// A session as it opens, in no transaction. The blocks of its contexts count for this account of the space, it holds locks
    /// under this number, and this many of its files can have a descriptor.
    ///
    /// `NoSpace` comes where less than 65,536 bytes are left of the account; `Memory` may come in its place. A refused call leaves
    /// the space's regions as they were.
    pub fn start(
        alloc: Global,
        account: u8,
        session: u8,
        descriptors: u8,
        space: &mut Space,
    ) -> Result<Session<H>, StartError>
        requires account { account < accounts space.old }
        requires descriptors { 0 < descriptors }
        ensures session { IfOk result (λ session. session_of session space.new ≡ opening) }
        ensures account { IfOk result (λ session. session.tree.account ≡ account) }
        ensures number { IfOk result (λ opened. opened.owners.session ≡ session) }
        ensures descriptors { IfOk result (λ session. session.owners.descriptors ≡ descriptors) }
        ensures levels { IfOk result (λ session. session.levels ≡ []) }
        ensures moves { IfOk result (λ session. Moves (no_contexts account) session.tree space.old space.new) }
        ensures keeps { held space.old account ≡ 0 → IfOk result (λ session. Keeps session space.new) }
        ensures stands { (x : ShelfState) (c : CommonState) → AreDistinct (shelf.held x) → IsSound (table_of c.kinds) → IfOk result (λ session. StandsIn session space.new x c) }
        ensures asked { OnOk result (Asks account asked_at_opening space.old space.new) }
        ensures served { OnOk result (held space.old account + asked_at_opening ≤ space.old.limit) }
        ensures refused { IfErr result (λ e. (e ≡ start_error.Memory) ⊎ (space.old.limit < held space.old account + asked_at_opening)) }
        ensures err_space { OnErr result (SameRegions space.old space.new) }
    {
        match Store::open(alloc, account, session, descriptors, space) {
            Ok(store) => Ok(Session { store }),
            Err(TreeError::Memory) => Err(StartError::Memory),
            Err(_) => Err(StartError::NoSpace),
        }
    }

    /// How many levels the transaction has; 0 where none is open: `GetCurrentTransactionNestLevel`.
    pub fn depth(&self) -> u32
        ensures depth { result ≡ length self.now.levels }
        ensures at_most { result ≤ most_levels }
    {
        self.store.depth()
    }

    /// The law by which a caller keeps this session while another one, of another account, works in the same space. A caller names it
    /// and cites it.
    pub fn beside(&self)
        ensures { StaysBeside self.now }
    {
        self.store.beside();
    }

    /// Where a live chunk is. The space has the chunk's known bytes there, and bytes that are written over them in the space
    /// are the chunk's.
    pub fn place(&self, chunk: &Name) -> Addr
        requires { (s : Space) × IsSome (found chunk.now (contexts_in self.now s)) }
        ensures known { (s : Space) → Keeps self.now s → IfSome (found chunk.now (contexts_in self.now s)) (λ f. HasBytes s result f.chunk.known) }
        ensures alone { (s t : Space) (offset : ℕ) (bytes : List ℕ) → Keeps self.now s → IfSome (found chunk.now (contexts_in self.now s)) (λ f. offset + length bytes ≤ length f.chunk.known) → Changes s t result.region (overwritten (region_at s result.region) (result.offset + offset) (map Some bytes)) → (c : CommonState) → ContextsAlone self.now self.now s t c c }
        ensures written { (s t : Space) (offset : ℕ) (bytes : List ℕ) → Keeps self.now s → IfSome (found chunk.now (contexts_in self.now s)) (λ f. offset + length bytes ≤ length f.chunk.known) → Changes s t result.region (overwritten (region_at s result.region) (result.offset + offset) (map Some bytes)) → (x : ShelfState) (c : CommonState) → Acted (contexts_become (written chunk.now offset bytes)) self.now self.now s t x x c c IsSilent }
        ensures between { (s t : Space) (offset : ℕ) (bytes : List ℕ) → IfSome (found chunk.now (contexts_in self.now s)) (λ f. offset + length bytes ≤ length f.chunk.known) → Changes s t result.region (overwritten (region_at s result.region) (result.offset + offset) (map Some bytes)) → (x : ShelfState) (c : CommonState) (calls : Calls) → IsBetweenLines (record { store = self.now; space = s; shelf = x; commons = c; calls = calls }) → IsBetweenLines (record { store = self.now; space = t; shelf = x; commons = c; calls = calls }) }
    {
        self.store.place(chunk)
    }

    /// Reads known bytes of a live chunk, from a place on: as many as `out` has.
    ///
    /// `NoName` comes where no chunk has the name, and `Range` where they would end behind the known bytes.
    pub fn bytes(
        &self,
        space: &Space,
        chunk: &Name,
        at: u64,
        out: &mut [u8],
    ) -> Result<(), TreeError>
        requires { Keeps self.now space.now }
        ensures answer { error_of result ≡ bytes_refusal chunk.now at (length out.old) (contexts_in self.now space.now) }
        ensures bytes { OnOk result (out.new ≡ shown chunk.now at (length out.old) (contexts_in self.now space.now)) }
        ensures err { OnErr result (out.new ≡ out.old) }
    {
        self.store.show(space, chunk, at, out)
    }
}
