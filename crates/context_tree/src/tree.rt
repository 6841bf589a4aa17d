//! The memory contexts of a session.
ghost use Rattle.std.specs.Prelude.{◌≡◌, ◌≢◌, ◌⊎◌, ℕ, ◌<◌, ◌+◌, ◌≤◌, ◌^◌, ◌==◌, ◌∷◌, if◌then◌else◌, List, [], map, length, true, false, Some, None, IfOk, IfErr, IfSome, IsSome, OnOk, OnErr};
ghost use Rattle.std.specs.Option.{option_map};
ghost use Rattle.addr_space.specs.Space.{Space, accounts, held, Asks, HasBytes, Changes, region_at, overwritten};
ghost use Rattle.pgs_step.specs.Name.{IsName};
ghost use Rattle.forest.specs.Forest.{Empty, Once, has, size, put, children, removed, is_above};
ghost use Rattle.context_rules.specs.Contexts as rules;
ghost use Rattle.context_rules.specs.Contexts.{is_protected, found, context_named, is_child};
ghost use Rattle.context_rules.specs.Ends.{gone, gone_events, waiting, handed_in, children_gone, cleared, cleared_alone};
ghost use Rattle.context_rules.specs.Opening.{opening, topmost};
ghost use Rattle.context_rules.specs.Chunks.{allocated, asked, zeros, freed, resized, resized_asked, written, shown, registered};
ghost use Rattle.any_ctx.specs.Kinds.{first_size, IsSlabSize};
ghost use Rattle.context_rules.specs.Refusals.{create_refusal, alloc_refusal, realloc_refusal, free_refusal, put_refusal, bytes_refusal, set_parent_refusal, reset_refusal, reset_only_refusal, delete_refusal, is_within};
ghost use Rattle.context_rules.specs.Reports as reports;
ghost use Rattle.context_tree.specs.Calls.{Did, DidNothing};
ghost use Rattle.context_tree.specs.State.{TreeState, IsLive, place_of, stands_for, no_contexts, total_of, Agrees, Moves, left_of, SameRegions, StaysPut, HooksFit, error_of};
ghost use Rattle.context_tree.specs.Lookup.{Leads};
ghost use Rattle.context_tree.specs.Making.{Added, AsksInVain, AsksPart, AsksPartInVain, CameBack};
ghost use Rattle.context_node.specs.declared.chunk_id.ChunkId.{ChunkId as Id};

use crate::making::{give_all_back, grow};
use crate::reporting::{context_at, report_all};
use addr_space::{Addr, Space};
use any_ctx::{CtxKind, SetBoxes};
use chunk_header::CtxError;
use context_node::{
    ChunkId, Entry, NewContext, Node, enter_chunk, enter_context, own_name, room_for_chunk,
    room_for_name,
};
use context_rules::TreeError;
use forest::{LinkedForest, NodeId};
use pgs_step::{CtxId, Emit, Name, What};
use reset_callbacks::{ResetHook, Shelf};
use std::alloc::Global;
use std::collections::HashMap;
use std::marker::Model;

/// The contexts that each session has for itself, below the topmost one.
#[derive(Clone, Copy)]
struct Own {
    top: CtxId,
    cache: CtxId,
    portals: CtxId,
    abort: CtxId,
}

/// The memory contexts of a session, as a tree: PostgreSQL's `TopMemoryContext` and all below it.
///
/// Contracts speak of the contexts that the tree and a space stand for, by their numbers, the newest child first.
#[derive(Drop)]
pub struct ContextTree<H: ResetHook> {
    alloc: Global,
    boxes: SetBoxes,
    nodes: LinkedForest<Node<H>>,
    names: HashMap<Name, CtxId>,
    chunk_names: HashMap<Name, ChunkId>,
    account: u8,
    own: Own,
    current: CtxId,
    next: u64,
    next_entry: u64,
}

impl<H: ResetHook> Model for ContextTree<H> {
    ghost use Rattle.context_tree.specs.State.{TreeState};

    ghost Value = { TreeState };

    ghost use Rattle.context_tree.specs.StateCode.{tree_code};

    ghost coded = { tree_code };

    ghost view = { λ t. record { kept = t.nodes.forest; places = t.nodes.places; account = t.account; current = t.current; next = t.next } };

    ghost use Rattle.std.specs.HashMap.{get};
    ghost use Rattle.context_node.specs.Soundness.{same};
    ghost use Rattle.context_tree.specs.Soundness.{IsSound};

    ghost invariant = { λ t. IsSound t.nodes.forest t.nodes.places (get same t.names) (get same t.chunk_names) t.own t.current t.next t.next_entry };
}

impl Own {
    /// The topmost context alone: no other one lies anywhere yet.
    fn with_top(top: CtxId) -> Own
        ensures { result ≡ record { top = top; cache = record { number = 3; slot = 0 }; portals = record { number = 4; slot = 0 }; abort = record { number = 5; slot = 0 } } }
    {
        Own {
            top,
            cache: CtxId { number: 3, slot: 0 },
            portals: CtxId { number: 4, slot: 0 },
            abort: CtxId { number: 5, slot: 0 },
        }
    }

    /// Notes where a context lies that was just made, if it is one of the session's own.
    fn note(&mut self, id: CtxId)
        ensures top { self.new.top ≡ (if id.number == 1 then id else self.old.top) }
        ensures cache { self.new.cache ≡ (if id.number == 3 then id else self.old.cache) }
        ensures portals { self.new.portals ≡ (if id.number == 4 then id else self.old.portals) }
        ensures abort { self.new.abort ≡ (if id.number == 5 then id else self.old.abort) }
    {
        match id.number {
            1 => self.top = id,
            3 => self.cache = id,
            4 => self.portals = id,
            5 => self.abort = id,
            _ => {}
        }
    }
}

/// The bytes that the first blocks of a session's own contexts take.
const OPENING_BYTES: u32 = 65_536;

impl<H: ResetHook> ContextTree<H> {
    /// The contexts that a session begins with, and the topmost one is current: `MemoryContextInit`. Nothing is said.
    ///
    /// `Ctx(NoSpace)` comes where less than 65,536 bytes are left of the account, and `Memory` may come. A refused call
    /// leaves the space's regions as they were.
    pub fn new(alloc: Global, account: u8, space: &mut Space) -> Result<ContextTree<H>, TreeError>
        requires account { account < accounts space.old }
        ensures contexts { IfOk result (λ tree. stands_for tree space.new ≡ opening) }
        ensures account { IfOk result (λ tree. tree.account ≡ account) }
        ensures current { IfOk result (λ tree. (tree.current.number ≡ 1) × IsLive tree tree.current) }
        ensures next { IfOk result (λ tree. tree.next ≡ 6) }
        ensures moves { IfOk result (λ tree. Moves (no_contexts account) tree space.old space.new) }
        ensures asked { OnOk result (Asks account 65536 space.old space.new) }
        ensures served { OnOk result (held space.old account + 65536 ≤ space.old.limit) }
        ensures refused { IfErr result (λ e. (e ≡ TreeError.Memory) ⊎ ((e ≡ TreeError.Ctx CtxError.NoSpace) × (space.old.limit < held space.old account + 65536))) }
        ensures err_space { OnErr result (SameRegions space.old space.new) }
        ensures err_asked { IfErr result (λ e. AsksPartInVain e account 65536 space.old space.new) }
    {
        if !space.fits(account, OPENING_BYTES) {
            return Err(TreeError::Ctx(CtxError::NoSpace));
        }
        let mut tree = ContextTree::topmost(alloc, account, space)?;
        match tree.open(space) {
            Ok(()) => Ok(tree),
            Err(_) => {
                tree.give_up(space);
                Err(TreeError::Memory)
            }
        }
    }

    /// The topmost context alone, which is current. Only memory may be refused.
    fn topmost(alloc: Global, account: u8, space: &mut Space) -> Result<ContextTree<H>, TreeError>
        requires account { account < accounts space.old }
        requires room { held space.old account + 65536 ≤ space.old.limit }
        ensures contexts { IfOk result (λ tree. stands_for tree space.new ≡ topmost) }
        ensures account { IfOk result (λ tree. tree.account ≡ account) }
        ensures current { IfOk result (λ tree. (tree.current.number ≡ 1) × IsLive tree tree.current) }
        ensures next { IfOk result (λ tree. tree.next ≡ 2) }
        ensures moves { IfOk result (λ tree. Moves (no_contexts account) tree space.old space.new) }
        ensures asked { OnOk result (Asks account 8192 space.old space.new) }
        ensures refused { IfErr result (λ e. e ≡ TreeError.Memory) }
        ensures err_space { OnErr result (CameBack account space.old space.new) }
        ensures err_asked { IfErr result (λ e. AsksInVain e account 8192 space.old space.new) }
    {
        let mut boxes = SetBoxes::new(alloc);
        let mut nodes = LinkedForest::new(alloc);
        let new = NewContext {
            number: 1,
            name: own_name(b"TopMemoryContext"),
            kind: CtxKind::Default,
            protected: true,
        };
        let top = context_at(grow(&mut nodes, space, alloc, &mut boxes, account, None, &new)?);
        Ok(ContextTree {
            alloc,
            boxes,
            nodes,
            names: HashMap::new(alloc),
            chunk_names: HashMap::new(alloc),
            account,
            own: Own::with_top(top),
            current: top,
            next: 2,
            next_entry: 1,
        })
    }

    /// Makes the session's other own contexts, below the topmost one, which is current.
    fn open(&mut self, space: &mut Space) -> Result<(), TreeError>
        requires agrees { Agrees self.old space.old }
        requires live { IsLive self.old self.old.current }
        requires top { self.old.current.number ≡ 1 }
        requires next { self.old.next ≡ 2 }
        requires contexts { stands_for self.old space.old ≡ topmost }
        ensures contexts { OnOk result (stands_for self.new space.new ≡ opening) }
        ensures live { OnOk result (IsLive self.new self.new.current) }
        ensures current { self.new.current ≡ self.old.current }
        ensures next { OnOk result (self.new.next ≡ 6) }
        ensures moves { Moves self.old self.new space.old space.new }
        ensures asked { OnOk result (Asks self.old.account 57344 space.old space.new) }
        ensures err_asked { OnErr result (AsksPart self.old.account 57344 space.old space.new) }
    {
        self.add_own(space, b"ErrorContext", CtxKind::Error)?;
        self.add_own(space, b"CacheMemoryContext", CtxKind::Default)?;
        self.add_own(space, b"TopPortalContext", CtxKind::Default)?;
        self.add_own(space, b"TransactionAbortContext", CtxKind::Abort)?;
        Ok(())
    }

    /// Makes one of the session's own contexts, below the topmost one, which is current.
    fn add_own(&mut self, space: &mut Space, word: &[u8], kind: CtxKind) -> Result<(), TreeError>
        requires agrees { Agrees self.old space.old }
        requires live { IsLive self.old self.old.current }
        requires top { self.old.current.number ≡ 1 }
        requires next { 1 < self.old.next }
        requires room { self.old.next < 2 ^ 62 }
        requires slab { IsSlabSize kind }
        requires name { IsName word.now }
        ensures contexts { OnOk result (stands_for self.new space.new ≡ rules.created 1 self.old.next word.now kind true (stands_for self.old space.old)) }
        ensures live { OnOk result (IsLive self.new self.new.current) }
        ensures current { self.new.current ≡ self.old.current }
        ensures next { OnOk result (self.new.next ≡ self.old.next + 1) }
        ensures moves { Moves self.old self.new space.old space.new }
        ensures asked { OnOk result (Asks self.old.account (first_size kind) space.old space.new) }
        ensures err_asked { OnErr result (AsksPart self.old.account (first_size kind) space.old space.new) }
    {
        let top = self.current;
        self.add(space, top, own_name(word), kind, true)?;
        Ok(())
    }

    /// Gives back all that the tree has, and says nothing.
    fn give_up(self, space: &mut Space)
        requires { Agrees self space.old }
        ensures moves { Moves self (no_contexts self.account) space.old space.new }
        ensures asked { (account : ℕ) → Asks account 0 space.old space.new }
    {
        let ContextTree {
            mut nodes,
            mut boxes,
            ..
        } = self;
        give_all_back(&mut nodes, space, &mut boxes);
    }

    /// Makes a context, the first child of another one: `MemoryContextCreate`. The numbers of contexts rise, and none is
    /// given twice. A protected one is one of the session's own, which `find` doesn't answer.
    ///
    /// `Taken` comes where the name is kept for sessions or that of a live context, unless the new one is protected;
    /// then `TooMany` where 65,536 contexts live, and then `Ctx(NoSpace)` where the first block doesn't fit; `Memory` may
    /// come in place of any of them. The slot of the context is what its blocks keep.
    pub fn create<E: Emit>(
        &mut self,
        space: &mut Space,
        parent: CtxId,
        name: Name,
        kind: CtxKind,
        protected: bool,
        out: &mut E,
    ) -> Result<CtxId, TreeError>
        requires agrees { Agrees self.old space.old }
        requires live { IsLive self.old parent }
        requires slab { IsSlabSize kind }
        requires room { self.old.next < 2 ^ 62 }
        ensures number { IfOk result (λ id. id.number ≡ self.old.next) }
        ensures contexts { OnOk result (stands_for self.new space.new ≡ rules.created parent.number self.old.next name kind protected (stands_for self.old space.old)) }
        ensures places { IfOk result (λ id. self.new.places ≡ put parent.number id.number id.slot Empty self.old.places) }
        ensures live { IfOk result (IsLive self.new) }
        ensures stays { (n : ℕ) → n ≢ self.old.next → place_of self.new n ≡ place_of self.old n }
        ensures fresh { has self.old.next (stands_for self.old space.old) ≡ false }
        ensures current { self.new.current ≡ self.old.current }
        ensures next { OnOk result (self.new.next ≡ self.old.next + 1) }
        ensures moves { Moves self.old self.new space.old space.new }
        ensures asked { OnOk result (Asks self.old.account (first_size kind) space.old space.new) }
        ensures emits { OnOk result (E.emits out.old (rules.created_events parent.number self.old.next name) out.new) }
        ensures served { OnOk result (create_refusal (left_of self.old space.old) name kind protected (stands_for self.old space.old) ≡ None) }
        ensures refused { IfErr result (λ e. (e ≡ TreeError.Memory) ⊎ (create_refusal (left_of self.old space.old) name kind protected (stands_for self.old space.old) ≡ Some e)) }
        ensures err { OnErr result (self.new ≡ self.old) }
        ensures err_space { OnErr result (SameRegions space.old space.new) }
        ensures err_asked { IfErr result (λ e. AsksInVain e self.old.account (first_size kind) space.old space.new) }
        ensures silent { OnErr result (out.new ≡ out.old) }
    {
        let id = self.add(space, parent, name, kind, protected)?;
        out.emit(What::Create {
            context: id.number,
            name,
            parent: parent.number,
        });
        Ok(id)
    }

    /// The same, and nothing is said.
    fn add(
        &mut self,
        space: &mut Space,
        parent: CtxId,
        name: Name,
        kind: CtxKind,
        protected: bool,
    ) -> Result<CtxId, TreeError>
        requires agrees { Agrees self.old space.old }
        requires live { IsLive self.old parent }
        requires slab { IsSlabSize kind }
        requires room { self.old.next < 2 ^ 62 }
        ensures added { IfOk result (λ id. Added self.old self.new parent.number name kind protected id space.old space.new) }
        ensures fresh { has self.old.next (stands_for self.old space.old) ≡ false }
        ensures moves { Moves self.old self.new space.old space.new }
        ensures refused { IfErr result (λ e. (e ≡ TreeError.Memory) ⊎ (create_refusal (left_of self.old space.old) name kind protected (stands_for self.old space.old) ≡ Some e)) }
        ensures err { OnErr result (self.new ≡ self.old) }
        ensures err_space { OnErr result (SameRegions space.old space.new) }
        ensures err_asked { IfErr result (λ e. AsksInVain e self.old.account (first_size kind) space.old space.new) }
    {
        room_for_name(&mut self.names, &name, protected)?;
        let new = NewContext {
            number: self.next,
            name,
            kind,
            protected,
        };
        let node = grow(
            &mut self.nodes,
            space,
            self.alloc,
            &mut self.boxes,
            self.account,
            Some(node_at(parent)),
            &new,
        )?;
        let id = context_at(node);
        enter_context(&mut self.names, name, protected, id);
        self.own.note(id);
        self.next += 1;
        Ok(id)
    }

    /// The context of that name, among those that aren't protected.
    pub fn find(&self, name: &Name) -> Option<CtxId>
        ensures some { (s : Space) → option_map (λ id. id.number) result ≡ context_named name.now (stands_for self.now s) }
        ensures live { IfSome result (IsLive self.now) }
    {
        self.names.get(name).copied()
    }

    /// The topmost context: `TopMemoryContext`.
    pub fn top(&self) -> CtxId
        ensures number { result.number ≡ 1 }
        ensures live { has 1 self.now.places ≡ true → IsLive self.now result }
        ensures stands { (s : Space) → has 1 (stands_for self.now s) ≡ true → IsLive self.now result }
    {
        self.own.top
    }

    /// The context of what lives as long as the session: `CacheMemoryContext`.
    pub fn cache(&self) -> CtxId
        ensures number { result.number ≡ 3 }
        ensures live { has 3 self.now.places ≡ true → IsLive self.now result }
        ensures stands { (s : Space) → has 3 (stands_for self.now s) ≡ true → IsLive self.now result }
    {
        self.own.cache
    }

    /// The context that portals are made in: `TopPortalContext`.
    pub fn portals(&self) -> CtxId
        ensures number { result.number ≡ 4 }
        ensures live { has 4 self.now.places ≡ true → IsLive self.now result }
        ensures stands { (s : Space) → has 4 (stands_for self.now s) ≡ true → IsLive self.now result }
    {
        self.own.portals
    }

    /// The context that an abort works in: `TransactionAbortContext`.
    pub fn abort_context(&self) -> CtxId
        ensures number { result.number ≡ 5 }
        ensures live { has 5 self.now.places ≡ true → IsLive self.now result }
        ensures stands { (s : Space) → has 5 (stands_for self.now s) ≡ true → IsLive self.now result }
    {
        self.own.abort
    }

    /// Takes a chunk, whose bytes aren't known: `MemoryContextAlloc`.
    ///
    /// `Taken` comes where its name stands, and then `Ctx` what the context's allocator answers; `Memory` may come in
    /// place of any of them.
    #[inline(always)]
    pub fn alloc(
        &mut self,
        space: &mut Space,
        at: CtxId,
        chunk: Option<Name>,
        size: u64,
    ) -> Result<(), TreeError>
        requires agrees { Agrees self.old space.old }
        requires live { IsLive self.old at }
        ensures contexts { OnOk result (stands_for self.new space.new ≡ allocated at.number (left_of self.old space.old) chunk size [] (stands_for self.old space.old)) }
        ensures stays { StaysPut self.old self.new }
        ensures moves { Moves self.old self.new space.old space.new }
        ensures asked { OnOk result (Asks self.old.account (asked at.number (left_of self.old space.old) size (stands_for self.old space.old)) space.old space.new) }
        ensures served { OnOk result (alloc_refusal at.number (left_of self.old space.old) chunk size (stands_for self.old space.old) ≡ None) }
        ensures refused { IfErr result (λ e. (e ≡ TreeError.Memory) ⊎ (alloc_refusal at.number (left_of self.old space.old) chunk size (stands_for self.old space.old) ≡ Some e)) }
        ensures err { OnErr result (self.new ≡ self.old) }
        ensures err_space { OnErr result (space.new ≡ space.old) }
    {
        room_for_chunk(&mut self.chunk_names, &chunk)?;
        let number = self.next_entry;
        let Some(next) = number.checked_add(1) else {
            return Err(TreeError::Memory);
        };
        let node = self.nodes.get_mut(node_at(at));
        let entry = node.alloc(space, number, chunk, size)?;
        self.next_entry = next;
        enter_chunk(&mut self.chunk_names, chunk, ChunkId { context: at, entry });
        Ok(())
    }

    /// Takes a chunk, whose bytes are all known and 0: `MemoryContextAllocZero`. The answers are those of `alloc`.
    pub fn alloc0(
        &mut self,
        space: &mut Space,
        at: CtxId,
        chunk: Option<Name>,
        size: u64,
    ) -> Result<(), TreeError>
        requires agrees { Agrees self.old space.old }
        requires live { IsLive self.old at }
        ensures contexts { OnOk result (stands_for self.new space.new ≡ allocated at.number (left_of self.old space.old) chunk size (zeros size) (stands_for self.old space.old)) }
        ensures stays { StaysPut self.old self.new }
        ensures moves { Moves self.old self.new space.old space.new }
        ensures asked { OnOk result (Asks self.old.account (asked at.number (left_of self.old space.old) size (stands_for self.old space.old)) space.old space.new) }
        ensures served { OnOk result (alloc_refusal at.number (left_of self.old space.old) chunk size (stands_for self.old space.old) ≡ None) }
        ensures refused { IfErr result (λ e. (e ≡ TreeError.Memory) ⊎ (alloc_refusal at.number (left_of self.old space.old) chunk size (stands_for self.old space.old) ≡ Some e)) }
        ensures err { OnErr result (self.new ≡ self.old) }
        ensures err_space { OnErr result (space.new ≡ space.old) }
    {
        room_for_chunk(&mut self.chunk_names, &chunk)?;
        let number = self.next_entry;
        let Some(next) = number.checked_add(1) else {
            return Err(TreeError::Memory);
        };
        let node = self.nodes.get_mut(node_at(at));
        let entry = node.alloc0(space, number, chunk, size)?;
        self.next_entry = next;
        enter_chunk(&mut self.chunk_names, chunk, ChunkId { context: at, entry });
        Ok(())
    }

    /// Gives a chunk another size, and keeps its known bytes as far as that goes: `repalloc`.
    ///
    /// `NoName` comes where no chunk has the name, and then `Ctx` what the context's allocator answers; `Memory` may come
    /// in place of any of them.
    pub fn realloc(&mut self, space: &mut Space, chunk: &Name, size: u64) -> Result<(), TreeError>
        requires agrees { Agrees self.old space.old }
        ensures contexts { OnOk result (stands_for self.new space.new ≡ resized (held space.old self.old.account) space.old.limit chunk.now size (stands_for self.old space.old)) }
        ensures stays { StaysPut self.old self.new }
        ensures moves { Moves self.old self.new space.old space.new }
        ensures asked { OnOk result (Asks self.old.account (resized_asked (held space.old self.old.account) space.old.limit chunk.now size (stands_for self.old space.old)) space.old space.new) }
        ensures served { OnOk result (realloc_refusal (held space.old self.old.account) space.old.limit chunk.now size (stands_for self.old space.old) ≡ None) }
        ensures refused { IfErr result (λ e. (e ≡ TreeError.Memory) ⊎ (realloc_refusal (held space.old self.old.account) space.old.limit chunk.now size (stands_for self.old space.old) ≡ Some e)) }
        ensures err { OnErr result (self.new ≡ self.old) }
        ensures err_space { OnErr result (space.new ≡ space.old) }
    {
        let Some(id) = self.chunk(chunk) else {
            return Err(TreeError::NoName);
        };
        let node = self.nodes.get_mut(node_at(id.context));
        node.realloc(space, id.entry, size)?;
        Ok(())
    }

    /// Frees a chunk: `pfree`.
    ///
    /// `NoName` comes where no chunk has the name, and `Ctx(Unsupported)` in a Bump.
    pub fn free(&mut self, space: &mut Space, chunk: &Name) -> Result<(), TreeError>
        requires agrees { Agrees self.old space.old }
        ensures answer { error_of result ≡ free_refusal chunk.now (stands_for self.old space.old) }
        ensures contexts { OnOk result (stands_for self.new space.new ≡ freed chunk.now (stands_for self.old space.old)) }
        ensures stays { StaysPut self.old self.new }
        ensures moves { Moves self.old self.new space.old space.new }
        ensures asked { Asks self.old.account 0 space.old space.new }
        ensures err { OnErr result (self.new ≡ self.old) }
        ensures err_space { OnErr result (space.new ≡ space.old) }
    {
        let Some(id) = self.chunk(chunk) else {
            return Err(TreeError::NoName);
        };
        self.nodes
            .get_mut(node_at(id.context))
            .free(space, id.entry)?;
        let _ = self.chunk_names.remove(chunk);
        Ok(())
    }

    /// Writes bytes into a chunk, from a place on. What is known of a chunk are its first bytes, so the place is among
    /// them or right behind them.
    ///
    /// `NoName` comes where no chunk has the name, and `Range` where the place is behind the known bytes, or the bytes
    /// would end behind the chunk.
    pub fn put(
        &mut self,
        space: &mut Space,
        chunk: &Name,
        at: u64,
        bytes: &[u8],
    ) -> Result<(), TreeError>
        requires agrees { Agrees self.old space.old }
        ensures answer { error_of result ≡ put_refusal chunk.now at (length bytes.now) (stands_for self.old space.old) }
        ensures contexts { OnOk result (stands_for self.new space.new ≡ written chunk.now at bytes.now (stands_for self.old space.old)) }
        ensures stays { StaysPut self.old self.new }
        ensures moves { Moves self.old self.new space.old space.new }
        ensures asked { Asks self.old.account 0 space.old space.new }
        ensures err { OnErr result (self.new ≡ self.old) }
        ensures err_space { OnErr result (space.new ≡ space.old) }
    {
        let Some(id) = self.chunk(chunk) else {
            return Err(TreeError::NoName);
        };
        let node = self.nodes.get_mut(node_at(id.context));
        node.put(space, id.entry, at, bytes)?;
        Ok(())
    }

    /// Reads bytes of a chunk, from a place on: as many as `out` has.
    ///
    /// `NoName` comes where no chunk has the name, and `Range` where they would end behind the known bytes.
    pub fn bytes(
        &self,
        space: &Space,
        chunk: &Name,
        at: u64,
        out: &mut [u8],
    ) -> Result<(), TreeError>
        requires agrees { Agrees self.now space.now }
        ensures answer { error_of result ≡ bytes_refusal chunk.now at (length out.old) (stands_for self.now space.now) }
        ensures bytes { OnOk result (out.new ≡ shown chunk.now at (length out.old) (stands_for self.now space.now)) }
        ensures err { OnErr result (out.new ≡ out.old) }
    {
        let Some(entry) = self.entry(chunk) else {
            return Err(TreeError::NoName);
        };
        let Some(from) = entry.known_at(at, out.len()) else {
            return Err(TreeError::Range);
        };
        space.read(from, out);
        Ok(())
    }

    /// Where a live chunk is. The space has the chunk's known bytes there, and bytes that are written over them in the space
    /// are the chunk's.
    pub fn place(&self, chunk: &Name) -> Addr
        requires { (s : Space) × IsSome (found chunk.now (stands_for self.now s)) }
        ensures known { (s : Space) → Agrees self.now s → IfSome (found chunk.now (stands_for self.now s)) (λ f. HasBytes s result f.chunk.known) }
        ensures written { (s t : Space) (offset : ℕ) (bytes : List ℕ) → Agrees self.now s → IfSome (found chunk.now (stands_for self.now s)) (λ f. offset + length bytes ≤ length f.chunk.known) → Changes s t result.region (overwritten (region_at s result.region) (result.offset + offset) (map Some bytes)) → (stands_for self.now t ≡ written chunk.now offset bytes (stands_for self.now s)) × Moves self.now self.now s t }
    {
        let _ = &self.nodes;
        match self.entry(chunk) {
            Some(entry) => entry.at,
            None => unreachable!(),
        }
    }

    /// Where the chunk of a name is kept.
    fn chunk(&self, name: &Name) -> Option<ChunkId>
        ensures none { result ≡ None → (s : Space) → found name.now (stands_for self.now s) ≡ None }
        ensures some { IfSome result (Leads self.now name.now) }
    {
        self.chunk_names.get(name).copied()
    }

    /// The chunk of a name.
    fn entry(&self, name: &Name) -> Option<Entry>
        ensures none { result ≡ None → (s : Space) → found name.now (stands_for self.now s) ≡ None }
        ensures some { IfSome result (λ entry. (id : Id) × (leads : Leads self.now name.now id) × (leads.chunk.entry ≡ entry)) }
    {
        let id = self.chunk(name)?;
        Some(self.nodes.get(node_at(id.context)).entry(id.entry))
    }

    /// Resets a context, once all below it is gone: `MemoryContextReset`. Callbacks run as for `gone` and `clear_only`.
    ///
    /// `Protected` comes for one of the session's own, and then `InUse` where the current context would go. It takes no
    /// memory.
    pub fn reset<E: Emit>(
        &mut self,
        space: &mut Space,
        shelf: &mut Shelf<H>,
        at: CtxId,
        out: &mut E,
    ) -> Result<(), TreeError>
        requires agrees { Agrees self.old space.old }
        requires live { IsLive self.old at }
        requires hooks { HooksFit (stands_for self.old space.old) shelf.old }
        ensures answer { error_of result ≡ reset_refusal at.number self.old.current.number (stands_for self.old space.old) }
        ensures did { OnOk result (Did (cleared at.number (stands_for self.old space.old)) self.old self.new space.old space.new shelf.old shelf.new) }
        ensures emits { OnOk result (E.emits out.old (cleared at.number (stands_for self.old space.old)).events out.new) }
        ensures err { OnErr result (DidNothing self.old self.new space.old space.new shelf.old shelf.new) }
        ensures silent { OnErr result (out.new ≡ out.old) }
    {
        if self.protected(at) {
            return Err(TreeError::Protected);
        }
        if self.is_current_below(at) {
            return Err(TreeError::InUse);
        }
        self.clear_children(space, shelf, at, out);
        self.clear_only(space, shelf, at, out);
        Ok(())
    }

    /// Resets a context and nothing below it: `MemoryContextResetOnly`.
    ///
    /// `Protected` comes for one of the session's own. It takes no memory.
    pub fn reset_only<E: Emit>(
        &mut self,
        space: &mut Space,
        shelf: &mut Shelf<H>,
        at: CtxId,
        out: &mut E,
    ) -> Result<(), TreeError>
        requires agrees { Agrees self.old space.old }
        requires live { IsLive self.old at }
        requires hooks { HooksFit (stands_for self.old space.old) shelf.old }
        ensures answer { error_of result ≡ reset_only_refusal at.number (stands_for self.old space.old) }
        ensures did { OnOk result (Did (cleared_alone at.number (stands_for self.old space.old)) self.old self.new space.old space.new shelf.old shelf.new) }
        ensures emits { OnOk result (E.emits out.old (cleared_alone at.number (stands_for self.old space.old)).events out.new) }
        ensures err { OnErr result (DidNothing self.old self.new space.old space.new shelf.old shelf.new) }
        ensures silent { OnErr result (out.new ≡ out.old) }
    {
        if self.protected(at) {
            return Err(TreeError::Protected);
        }
        self.clear_only(space, shelf, at, out);
        Ok(())
    }

    /// The same without the test, for the session itself. Where the context wasn't used since it was made or reset,
    /// nothing happens; where it was, its callbacks run, the newest first, and then its chunks go.
    pub fn clear_only<E: Emit>(
        &mut self,
        space: &mut Space,
        shelf: &mut Shelf<H>,
        at: CtxId,
        out: &mut E,
    )
        requires agrees { Agrees self.old space.old }
        requires live { IsLive self.old at }
        requires hooks { HooksFit (stands_for self.old space.old) shelf.old }
        ensures did { Did (cleared_alone at.number (stands_for self.old space.old)) self.old self.new space.old space.new shelf.old shelf.new }
        ensures emits { E.emits out.old (cleared_alone at.number (stands_for self.old space.old)).events out.new }
    {
        let node = self.nodes.get_mut(node_at(at));
        if node.is_used() {
            node.reset(space, shelf, &mut self.chunk_names, at.number, out);
        }
    }

    /// Deletes a context with all below it: `MemoryContextDelete`. What is below goes first, the newest child before the
    /// others, and each context's callbacks run before it goes, the newest first.
    ///
    /// `Protected` comes for one of the session's own, and then `InUse` where the current context would go. It takes no
    /// memory, however deep the tree is.
    pub fn delete<E: Emit>(
        &mut self,
        space: &mut Space,
        shelf: &mut Shelf<H>,
        at: CtxId,
        out: &mut E,
    ) -> Result<(), TreeError>
        requires agrees { Agrees self.old space.old }
        requires live { IsLive self.old at }
        requires hooks { HooksFit (stands_for self.old space.old) shelf.old }
        ensures answer { error_of result ≡ delete_refusal at.number self.old.current.number (stands_for self.old space.old) }
        ensures did { OnOk result (Did (gone at.number (stands_for self.old space.old)) self.old self.new space.old space.new shelf.old shelf.new) }
        ensures emits { OnOk result (E.emits out.old (gone at.number (stands_for self.old space.old)).events out.new) }
        ensures err { OnErr result (DidNothing self.old self.new space.old space.new shelf.old shelf.new) }
        ensures silent { OnErr result (out.new ≡ out.old) }
    {
        if self.protected(at) {
            return Err(TreeError::Protected);
        }
        if self.current.number == at.number || self.is_current_below(at) {
            return Err(TreeError::InUse);
        }
        self.gone(space, shelf, at, out);
        Ok(())
    }

    /// Deletes all below a context: `MemoryContextDeleteChildren`.
    ///
    /// `Protected` comes for one of the session's own, and then `InUse` where the current context would go. It takes no
    /// memory.
    pub fn delete_children<E: Emit>(
        &mut self,
        space: &mut Space,
        shelf: &mut Shelf<H>,
        at: CtxId,
        out: &mut E,
    ) -> Result<(), TreeError>
        requires agrees { Agrees self.old space.old }
        requires live { IsLive self.old at }
        requires hooks { HooksFit (stands_for self.old space.old) shelf.old }
        ensures answer { error_of result ≡ reset_refusal at.number self.old.current.number (stands_for self.old space.old) }
        ensures did { OnOk result (Did (children_gone at.number (stands_for self.old space.old)) self.old self.new space.old space.new shelf.old shelf.new) }
        ensures emits { OnOk result (E.emits out.old (children_gone at.number (stands_for self.old space.old)).events out.new) }
        ensures err { OnErr result (DidNothing self.old self.new space.old space.new shelf.old shelf.new) }
        ensures silent { OnErr result (out.new ≡ out.old) }
    {
        if self.protected(at) {
            return Err(TreeError::Protected);
        }
        if self.is_current_below(at) {
            return Err(TreeError::InUse);
        }
        self.clear_children(space, shelf, at, out);
        Ok(())
    }

    /// `delete` without the tests, for the session itself. The current context isn't among what goes, unless it is the
    /// last one of all: a session's end.
    pub fn gone<E: Emit>(&mut self, space: &mut Space, shelf: &mut Shelf<H>, at: CtxId, out: &mut E)
        requires agrees { Agrees self.old space.old }
        requires live { IsLive self.old at }
        requires hooks { HooksFit (stands_for self.old space.old) shelf.old }
        requires apart { (is_within at.number self.old.current.number (stands_for self.old space.old) ≡ false) ⊎ ((self.old.current.number ≡ at.number) × (removed at.number (stands_for self.old space.old) ≡ Empty)) }
        ensures did { Did (gone at.number (stands_for self.old space.old)) self.old self.new space.old space.new shelf.old shelf.new }
        ensures emits { E.emits out.old (gone at.number (stands_for self.old space.old)).events out.new }
    {
        let _ = &self.nodes;
        self.clear_children(space, shelf, at, out);
        self.drop_one(space, shelf, at, out);
    }

    /// `delete_children` without the tests, likewise. The current context isn't below this one.
    pub fn clear_children<E: Emit>(
        &mut self,
        space: &mut Space,
        shelf: &mut Shelf<H>,
        at: CtxId,
        out: &mut E,
    )
        requires agrees { Agrees self.old space.old }
        requires live { IsLive self.old at }
        requires hooks { HooksFit (stands_for self.old space.old) shelf.old }
        requires apart { is_above at.number self.old.current.number (stands_for self.old space.old) ≡ false }
        ensures did { Did (children_gone at.number (stands_for self.old space.old)) self.old self.new space.old space.new shelf.old shelf.new }
        ensures live { IsLive self.new at }
        ensures emits { E.emits out.old (children_gone at.number (stands_for self.old space.old)).events out.new }
    {
        let top = node_at(at);
        let mut leaf = self.nodes.first_leaf(top);
        while leaf.number != at.number {
            let next = self.nodes.following(leaf, top);
            self.drop_one(space, shelf, context_at(leaf), out);
            leaf = next;
        }
    }

    /// Ends the tree: all of its contexts go, as with `gone`, and it gives all that it has to the space.
    ///
    /// What is below a context goes before it, the newest child first, and its callbacks run directly before it goes, the
    /// newest first. Each hook that waited has run once and is on the shelf, spent (`shelf`). The account holds less by
    /// the bytes of all contexts (`held`), and no region of the space is the tree's (`moves`). It takes no memory, however
    /// deep the tree is.
    pub fn end<E: Emit>(self, space: &mut Space, shelf: &mut Shelf<H>, out: &mut E)
        requires agrees { Agrees self space.old }
        requires hooks { HooksFit (stands_for self space.old) shelf.old }
        ensures moves { Moves self (no_contexts self.account) space.old space.new }
        ensures held { held space.new self.account + total_of (stands_for self space.old) ≡ held space.old self.account }
        ensures shelf { shelf.new ≡ handed_in (waiting (stands_for self space.old)) shelf.old }
        ensures emits { E.emits out.old (gone_events (stands_for self space.old)) out.new }
        ensures asked { Asks self.account 0 space.old space.new }
    {
        let ContextTree {
            mut nodes,
            mut boxes,
            mut chunk_names,
            ..
        } = self;
        while let Some(root) = nodes.first() {
            let leaf = nodes.first_leaf(root);
            let node = nodes.remove(leaf);
            node.end(space, &mut boxes, shelf, &mut chunk_names, leaf.number, out);
            tell_deleted(leaf.number, out);
        }
    }

    /// A context without children goes: its callbacks run, the newest first, and then it is gone.
    fn drop_one<E: Emit>(&mut self, space: &mut Space, shelf: &mut Shelf<H>, at: CtxId, out: &mut E)
        requires agrees { Agrees self.old space.old }
        requires live { IsLive self.old at }
        requires hooks { HooksFit (stands_for self.old space.old) shelf.old }
        requires leaf { children at.number (stands_for self.old space.old) ≡ Empty }
        requires apart { (self.old.current.number ≢ at.number) ⊎ (removed at.number (stands_for self.old space.old) ≡ Empty) }
        ensures did { Did (gone at.number (stands_for self.old space.old)) self.old self.new space.old space.new shelf.old shelf.new }
        ensures emits { E.emits out.old (gone at.number (stands_for self.old space.old)).events out.new }
    {
        let id = node_at(at);
        self.nodes.get(id).forget_name(&mut self.names);
        let node = self.nodes.remove(id);
        node.end(
            space,
            &mut self.boxes,
            shelf,
            &mut self.chunk_names,
            at.number,
            out,
        );
        tell_deleted(at.number, out);
    }

    /// Whether the current context is below this one.
    fn is_current_below(&self, at: CtxId) -> bool
        requires { IsLive self.now at }
        ensures { (s : Space) → result ≡ is_above at.number self.now.current.number (stands_for self.now s) }
    {
        let top = node_at(at);
        match self.nodes.first_child(top) {
            Some(_) => self.nodes.is_above(top, node_at(self.current)),
            None => false,
        }
    }

    /// A hook waits for the end of what the context holds: `MemoryContextRegisterResetCallback`. It is handed back where
    /// memory is refused, and nothing changes.
    pub fn register(&mut self, at: CtxId, hook: H) -> Result<(), H>
        requires live { IsLive self.old at }
        ensures contexts { OnOk result ((s : Space) → stands_for self.new s ≡ registered at.number (H.hook_meaning hook) (stands_for self.old s)) }
        ensures moves { (s : Space) → Agrees self.old s → Moves self.old self.new s s }
        ensures stays { StaysPut self.old self.new }
        ensures handed_back { IfErr result (λ back. back ≡ hook) }
        ensures err { OnErr result (self.new ≡ self.old) }
    {
        self.nodes.get_mut(node_at(at)).register(hook)
    }

    /// Makes a context, with all below it, the first child of another one: `MemoryContextSetParent`. Where it is a child
    /// of that one already, nothing happens.
    ///
    /// `Protected` comes for one of the session's own, and `Cycle` where the new parent is the context or below it.
    pub fn set_parent<E: Emit>(
        &mut self,
        at: CtxId,
        parent: CtxId,
        out: &mut E,
    ) -> Result<(), TreeError>
        requires live { IsLive self.old at }
        requires parent { IsLive self.old parent }
        ensures answer { (s : Space) → error_of result ≡ set_parent_refusal at.number parent.number (stands_for self.old s) }
        ensures contexts { OnOk result ((s : Space) → stands_for self.new s ≡ rules.reparented at.number parent.number (stands_for self.old s)) }
        ensures moves { (s : Space) → Agrees self.old s → Moves self.old self.new s s }
        ensures emits { OnOk result ((s : Space) → E.emits out.old (rules.reparented_events at.number parent.number (stands_for self.old s)) out.new) }
        ensures places { (n : ℕ) → place_of self.new n ≡ place_of self.old n }
        ensures current { self.new.current ≡ self.old.current }
        ensures next { self.new.next ≡ self.old.next }
        ensures err { OnErr result (self.new ≡ self.old) }
        ensures silent { OnErr result (out.new ≡ out.old) }
    {
        if self.protected(at) {
            return Err(TreeError::Protected);
        }
        if self.is_within(at, parent) {
            return Err(TreeError::Cycle);
        }
        self.move_to(at, parent, out);
        Ok(())
    }

    /// The same without the tests, for the session itself. The new parent isn't the context or below it, and it is
    /// protected where the context is.
    pub fn move_to<E: Emit>(&mut self, at: CtxId, parent: CtxId, out: &mut E)
        requires live { IsLive self.old at }
        requires parent { IsLive self.old parent }
        requires apart { (s : Space) × (is_within at.number parent.number (stands_for self.old s) ≡ false) }
        requires protected { (s : Space) × (is_protected at.number (stands_for self.old s) ≡ true → is_protected parent.number (stands_for self.old s) ≡ true) }
        ensures contexts { (s : Space) → stands_for self.new s ≡ rules.reparented at.number parent.number (stands_for self.old s) }
        ensures moves { (s : Space) → Agrees self.old s → Moves self.old self.new s s }
        ensures emits { (s : Space) → E.emits out.old (rules.reparented_events at.number parent.number (stands_for self.old s)) out.new }
        ensures places { (n : ℕ) → place_of self.new n ≡ place_of self.old n }
        ensures current { self.new.current ≡ self.old.current }
        ensures next { self.new.next ≡ self.old.next }
    {
        if self.is_child(at, parent) {
            return;
        }
        self.nodes.move_to(node_at(at), node_at(parent));
        out.emit(What::Move {
            context: at.number,
            parent: parent.number,
        });
    }

    /// Whether a context is a child of another one.
    fn is_child(&self, at: CtxId, parent: CtxId) -> bool
        requires { IsLive self.now at }
        ensures { (s : Space) → result ≡ is_child at.number parent.number (stands_for self.now s) }
    {
        match self.nodes.parent(node_at(at)) {
            Some(above) => above.number == parent.number,
            None => false,
        }
    }

    /// Whether the second context is the first one or below it.
    fn is_within(&self, at: CtxId, other: CtxId) -> bool
        requires context { IsLive self.now at }
        requires other { IsLive self.now other }
        ensures { (s : Space) → result ≡ is_within at.number other.number (stands_for self.now s) }
    {
        other.number == at.number || self.nodes.is_above(node_at(at), node_at(other))
    }

    /// Whether a context is one of the session's own.
    pub fn protected(&self, at: CtxId) -> bool
        requires { IsLive self.now at }
        ensures { (s : Space) → result ≡ is_protected at.number (stands_for self.now s) }
    {
        self.nodes.get(node_at(at)).is_protected()
    }

    /// Whether a context has no child and wasn't used since it was made or reset: `MemoryContextIsEmpty`.
    pub fn is_empty(&self, at: CtxId) -> bool
        requires { IsLive self.now at }
        ensures { (s : Space) → result ≡ rules.is_empty at.number (stands_for self.now s) }
    {
        !self.nodes.get(node_at(at)).is_used() && self.nodes.first_child(node_at(at)).is_none()
    }

    /// Makes a context the current one: `MemoryContextSwitchTo`.
    pub fn switch(&mut self, to: CtxId)
        requires { IsLive self.old to }
        ensures { self.new ≡ record self.old { current = to } }
    {
        self.current = to;
    }

    /// The current context: `CurrentMemoryContext`.
    pub fn current(&self) -> CtxId
        ensures { result ≡ self.now.current }
    {
        self.current
    }

    /// How many contexts live. No two of them have one number.
    pub fn count(&self) -> u64
        ensures value { (s : Space) → result ≡ size (stands_for self.now s) }
        ensures once { (s : Space) → Once (stands_for self.now s) }
    {
        self.nodes.len() as u64
    }

    /// The law by which a caller knows which contexts are there: those that have a place. A caller names it and cites it.
    pub fn lies(&self)
        ensures { (n : ℕ) (s : Space) → has n (stands_for self.now s) ≡ has n self.now.places }
    {
        let _ = &self.nodes;
    }

    /// The laws by which a caller keeps this tree while another one, of another account, changes in the same space. A caller
    /// names it and cites a clause.
    pub fn beside(&self)
        ensures agrees { (a b : TreeState) (s t : Space) → Moves a b s t → Agrees a s → Agrees self.now s → a.account ≢ self.now.account → Agrees self.now t }
        ensures contexts { (a b : TreeState) (s t : Space) → Moves a b s t → Agrees a s → Agrees self.now s → a.account ≢ self.now.account → stands_for self.now t ≡ stands_for self.now s }
    {
        let _ = &self.nodes;
    }

    /// Says what each context holds, from the topmost one on, and what all hold together: `MemoryContextStats`.
    pub fn report<E: Emit>(&self, out: &mut E)
        ensures { (s : Space) → E.emits out.old (reports.report (stands_for self.now s)) out.new }
    {
        report_all(&self.nodes, out);
    }
}

/// The node at which a context lies.
fn node_at(id: CtxId) -> NodeId
    ensures { result ≡ record { number = id.number; slot = id.slot } }
{
    NodeId {
        number: id.number,
        slot: id.slot,
    }
}

/// Says that a context is gone.
#[inline(never)]
fn tell_deleted<E: Emit>(number: u64, out: &mut E)
    ensures { E.emits out.old (What.Delete number ∷ []) out.new }
{
    out.emit(What::Delete(number));
}
