//! The store of a session: how it opens, and what it is asked.
ghost use Rattle.std.specs.Prelude.{◌≡◌, ◌⊎◌, ℕ, ◌+◌, ◌<◌, ◌≤◌, length, Some, None, IfOk, IfErr, IfSome, OnOk, OnErr};
ghost use Rattle.std.specs.Option.{option_map, option_and_then};
ghost use Rattle.addr_space.specs.Space.{Space, accounts, held, Asks};
ghost use Rattle.reset_callbacks.specs.Hook.{AreDistinct};
ghost use Rattle.reset_callbacks.specs.ShelfState as shelf;
ghost use Rattle.reset_callbacks.specs.ShelfState.{ShelfState};
ghost use Rattle.owner_kinds.specs.KindShelf.{table_of};
ghost use Rattle.owner_kinds.specs.KindTable.{IsSound};
ghost use Rattle.context_rules.specs.Names.{same_name};
ghost use Rattle.context_rules.specs.Contexts.{is_protected};
ghost use Rattle.context_tree.specs.State.{IsLive, Moves, SameRegions, no_contexts};
ghost use Rattle.session_rules.specs.Limits.{asked_at_opening};
ghost use Rattle.session_rules.specs.State.{opening};
ghost use Rattle.session_rules.specs.Lookup.{context_named};
ghost use Rattle.session_rules.specs.Acts.{switched};
ghost use Rattle.subxact_stack.specs.Levels.{level_at};
ghost use Rattle.session_owners.specs.Commons.{CommonState};
ghost use Rattle.session_store.specs.State.{contexts_in, session_of};
ghost use Rattle.session_store.specs.Calls.{Acted, ContextsAlone, IsSilent, Keeps, StandsIn, StaysBeside};

use addr_space::Space;
use chunk_header::CtxError;
use context_rules::TreeError;
use context_tree::ContextTree;
use pgs_step::{CtxId, Name};
use portal_store::Portals;
use reset_callbacks::ResetHook;
use session_owners::Resources;
use std::alloc::Global;
use std::marker::Model;
use subxact_stack::Levels;

/// What one session of a backend holds: its memory contexts, its resource owners with what they hold, its plans, the levels of its
/// transaction, and its portals. Each method does what one part of the session's rules says.
///
/// Contracts speak of the session that the store and its space stand for.
#[derive(Drop)]
pub struct Store<H: ResetHook> {
    /// The memory contexts.
    pub tree: ContextTree<H>,
    /// The resource owners with what they hold, and the plans.
    pub owners: Resources,
    /// The levels of the transaction, level 1 first.
    pub levels: Levels,
    /// The portals, the newest first.
    pub portals: Portals,
}

impl<H: ResetHook> Model for Store<H> {
    ghost use Rattle.session_store.specs.State.{StoreState};

    ghost Value = { StoreState };

    ghost use Rattle.session_store.specs.StateCode.{store_code};

    ghost coded = { store_code };

    ghost view = { λ s. record { tree = s.tree; owners = s.owners; levels = s.levels; portals = s.portals } };

    ghost use Rattle.session_store.specs.Placed.{IsPlaced};

    ghost invariant = { λ s. IsPlaced s.tree s.owners s.levels s.portals };
}

impl<H: ResetHook> Store<H> {
    /// A session as it opens, in no transaction. Its contexts count for this account of the space, it holds locks under this
    /// number, and this many of its files can have a descriptor.
    ///
    /// `Ctx(NoSpace)` comes where less than 65,536 bytes are left of the account, and `Memory` may come. A refused call
    /// leaves the space's regions as they were.
    pub fn open(
        alloc: Global,
        account: u8,
        session: u8,
        descriptors: u8,
        space: &mut Space,
    ) -> Result<Store<H>, TreeError>
        requires account { account < accounts space.old }
        requires descriptors { 0 < descriptors }
        ensures session { IfOk result (λ store. session_of store space.new ≡ opening) }
        ensures account { IfOk result (λ store. store.tree.account ≡ account) }
        ensures number { IfOk result (λ store. store.owners.session ≡ session) }
        ensures descriptors { IfOk result (λ store. store.owners.descriptors ≡ descriptors) }
        ensures moves { IfOk result (λ store. Moves (no_contexts account) store.tree space.old space.new) }
        ensures keeps { held space.old account ≡ 0 → IfOk result (λ store. Keeps store space.new) }
        ensures stands { (x : ShelfState) (c : CommonState) → AreDistinct (shelf.held x) → IsSound (table_of c.kinds) → IfOk result (λ store. StandsIn store space.new x c) }
        ensures asked { OnOk result (Asks account asked_at_opening space.old space.new) }
        ensures served { OnOk result (held space.old account + asked_at_opening ≤ space.old.limit) }
        ensures refused { IfErr result (λ e. (e ≡ TreeError.Memory) ⊎ ((e ≡ TreeError.Ctx CtxError.NoSpace) × (space.old.limit < held space.old account + asked_at_opening))) }
        ensures err_space { OnErr result (SameRegions space.old space.new) }
    {
        let owners = match Resources::new(alloc, session, descriptors) {
            Ok(owners) => owners,
            Err(_) => return Err(TreeError::Memory),
        };
        match ContextTree::new(alloc, account, space) {
            Ok(tree) => Ok(Store {
                tree,
                owners,
                levels: Levels::new(alloc),
                portals: Portals::new(alloc),
            }),
            Err(error) => Err(error),
        }
    }

    /// The context that a script means by a name: two of the session's own, those of the outermost and of the deepest level, or
    /// one that a script made.
    pub fn named(&self, name: &Name) -> Option<CtxId>
        ensures named { (s : Space) → option_map (λ id. id.number) result ≡ context_named name.now (session_of self.now s) }
        ensures live { (s : Space) (x : ShelfState) (c : CommonState) → StandsIn self.now s x c → IfSome result (IsLive self.now.tree) }
    {
        if is_word(name, b"TopMemoryContext") {
            return Some(self.tree.top());
        }
        if is_word(name, b"CacheMemoryContext") {
            return Some(self.tree.cache());
        }
        if is_word(name, b"TopTransactionContext") {
            return self.level_context(1);
        }
        if is_word(name, b"CurTransactionContext") {
            return self.level_context(self.levels.depth());
        }
        self.tree.find(name)
    }

    /// The context of the level of that number, where there is one and it has one.
    fn level_context(&self, level: u32) -> Option<CtxId>
        ensures context { result ≡ option_and_then (λ found. found.context) (level_at self.now.levels level) }
        ensures live { (s : Space) (x : ShelfState) (c : CommonState) → StandsIn self.now s x c → IfSome result (IsLive self.now.tree) }
    {
        match self.levels.at(level) {
            Some(found) => found.context,
            None => None,
        }
    }

    /// The current context: `CurrentMemoryContext`.
    pub fn current(&self) -> CtxId
        ensures current { result ≡ self.now.tree.current }
        ensures live { (s : Space) (x : ShelfState) (c : CommonState) → StandsIn self.now s x c → IsLive self.now.tree result }
    {
        self.tree.current()
    }

    /// Whether a context is one of the session's own.
    pub fn protected(&self, at: CtxId) -> bool
        requires { IsLive self.now.tree at }
        ensures { (s : Space) → result ≡ is_protected at.number (contexts_in self.now s) }
    {
        self.tree.protected(at)
    }

    /// The law by which a caller keeps this store while another session's contexts, which count for another account, change in the
    /// same space. A caller names it and cites it.
    pub fn beside(&self)
        ensures { StaysBeside self.now }
    {
        self.tree.beside();
    }

    /// Makes a context the current one: `MemoryContextSwitchTo`.
    pub fn switch(&mut self, to: CtxId)
        requires live { IsLive self.old.tree to }
        ensures store { self.new ≡ record self.old { tree = record self.old.tree { current = to } } }
        ensures acted { (s : Space) (x : ShelfState) (c : CommonState) → Acted (switched to.number) self.old self.new s s x x c c IsSilent }
        ensures alone { (s : Space) (c : CommonState) → Keeps self.old s → ContextsAlone self.old self.new s s c c }
    {
        self.tree.switch(to);
    }
}

/// Whether a name is this word.
fn is_word(name: &Name, word: &[u8]) -> bool
    ensures { result ≡ same_name name.now word.now }
{
    name.as_slice() == word
}
