//! Contexts of a session are made and moved, and asked for as a whole.
ghost use Rattle.std.specs.Prelude.{◌≡◌, ◌⊎◌, ◌<◌, ◌^◌, false, Some, None, IfOk, IfErr, OnOk, OnErr};
ghost use Rattle.addr_space.specs.Space.{Space, Asks};
ghost use Rattle.any_ctx.specs.Kinds.{first_size, IsSlabSize};
ghost use Rattle.reset_callbacks.specs.ShelfState.{ShelfState};
ghost use Rattle.forest.specs.Forest.{size};
ghost use Rattle.context_rules.specs.Refusals as refusals;
ghost use Rattle.context_rules.specs.Refusals.{create_refusal, set_parent_refusal};
ghost use Rattle.context_rules.specs.Reports as reports;
ghost use Rattle.context_tree.specs.State.{IsLive, error_of};
ghost use Rattle.context_tree.specs.Making.{AsksInVain};
ghost use Rattle.session_rules.specs.Making.{context_made};
ghost use Rattle.session_rules.specs.Parts.{context_moved};
ghost use Rattle.session_owners.specs.Commons.{CommonState};
ghost use Rattle.session_store.specs.State.{contexts_in, left_in};
ghost use Rattle.session_store.specs.Calls.{Acted, ContextsAlone, Keeps, Refused, StandsIn};

use crate::store::Store;
use addr_space::Space;
use any_ctx::CtxKind;
use context_rules::{TreeError, is_reserved};
use pgs_step::{CtxId, Emit, Name};
use reset_callbacks::ResetHook;

impl<H: ResetHook> Store<H> {
    /// Makes a context for a script, the first child of another one: `MemoryContextCreate`.
    ///
    /// `Taken` comes where the name is kept for sessions or that of a live context; then `TooMany` where 65,536 contexts
    /// live, and then `Ctx(NoSpace)` where the first block doesn't fit; `Memory` may come in place of any of them.
    pub fn create<E: Emit>(
        &mut self,
        space: &mut Space,
        parent: CtxId,
        name: Name,
        kind: CtxKind,
        out: &mut E,
    ) -> Result<CtxId, TreeError>
        requires keeps { Keeps self.old space.old }
        requires stands { (x : ShelfState) × ((c : CommonState) × StandsIn self.old space.old x c) }
        requires live { IsLive self.old.tree parent }
        requires slab { IsSlabSize kind }
        requires room { self.old.tree.next < 2 ^ 62 }
        ensures number { IfOk result (λ id. id.number ≡ self.old.tree.next) }
        ensures live { IfOk result (IsLive self.new.tree) }
        ensures acted { OnOk result ((x : ShelfState) (c : CommonState) → Acted (context_made parent.number name false kind) self.old self.new space.old space.new x x c c (λ events. E.emits out.old events out.new)) }
        ensures alone { (c : CommonState) → ContextsAlone self.old self.new space.old space.new c c }
        ensures asked { OnOk result (Asks self.old.tree.account (first_size kind) space.old space.new) }
        ensures served { OnOk result (create_refusal (left_in self.old space.old) name kind false (contexts_in self.old space.old) ≡ None) }
        ensures cause { IfErr result (λ e. (e ≡ TreeError.Memory) ⊎ (create_refusal (left_in self.old space.old) name kind false (contexts_in self.old space.old) ≡ Some e)) }
        ensures refused { OnErr result ((x : ShelfState) (c : CommonState) → Refused self.old self.new space.old space.new x x c c) }
        ensures err_asked { IfErr result (λ e. AsksInVain e self.old.tree.account (first_size kind) space.old space.new) }
        ensures silent { OnErr result (out.new ≡ out.old) }
    {
        self.tree.create(space, parent, name, kind, false, out)
    }

    /// Makes a context, with all below it, the first child of another one: `MemoryContextSetParent`. Where it is a child
    /// of that one already, nothing happens.
    ///
    /// `Protected` comes for one of the session's own, and `Cycle` where the new parent is the context or below it.
    pub fn reparent<E: Emit>(
        &mut self,
        at: CtxId,
        parent: CtxId,
        out: &mut E,
    ) -> Result<(), TreeError>
        requires stands { (s : Space) × ((x : ShelfState) × ((c : CommonState) × StandsIn self.old s x c)) }
        requires live { IsLive self.old.tree at }
        requires parent { IsLive self.old.tree parent }
        ensures answer { (s : Space) → error_of result ≡ set_parent_refusal at.number parent.number (contexts_in self.old s) }
        ensures acted { OnOk result ((s : Space) (x : ShelfState) (c : CommonState) → Acted (context_moved at.number parent.number) self.old self.new s s x x c c (λ events. E.emits out.old events out.new)) }
        ensures alone { (s : Space) (c : CommonState) → Keeps self.old s → ContextsAlone self.old self.new s s c c }
        ensures err { OnErr result (self.new ≡ self.old) }
        ensures silent { OnErr result (out.new ≡ out.old) }
    {
        self.tree.set_parent(at, parent, out)
    }

    /// Whether a script's new context may not have this name: it is kept for sessions, or that of a live context.
    pub fn is_taken(&self, name: &Name) -> bool
        ensures { (s : Space) → result ≡ refusals.is_taken name.now (contexts_in self.now s) }
    {
        if is_reserved(name) {
            return true;
        }
        self.tree.find(name).is_some()
    }

    /// How many contexts live.
    pub fn context_count(&self) -> u64
        ensures { (s : Space) → result ≡ size (contexts_in self.now s) }
    {
        self.tree.count()
    }

    /// Says what each context holds, from the topmost one on, and what all hold together: `MemoryContextStats`.
    pub fn report<E: Emit>(&self, out: &mut E)
        ensures { (s : Space) → E.emits out.old (reports.report (contexts_in self.now s)) out.new }
    {
        self.tree.report(out);
    }
}
