//! Contexts of a session are reset, and go.
ghost use Rattle.std.specs.Prelude.{◌≡◌, OnOk, OnErr};
ghost use Rattle.addr_space.specs.Space.{Asks};
ghost use Rattle.context_rules.specs.Refusals.{delete_refusal, reset_only_refusal, reset_refusal};
ghost use Rattle.context_tree.specs.State.{IsLive, error_of};
ghost use Rattle.session_rules.specs.Acts.{children_gone, context_cleared, context_cleared_alone, context_gone};
ghost use Rattle.session_owners.specs.Commons.{CommonState};
ghost use Rattle.session_store.specs.State.{contexts_in};
ghost use Rattle.session_store.specs.Calls.{Acted, ContextsAlone, Keeps, Refused, StandsIn};

use crate::store::Store;
use addr_space::Space;
use context_rules::TreeError;
use pgs_step::{CtxId, Emit};
use reset_callbacks::{ResetHook, Shelf};

impl<H: ResetHook> Store<H> {
    /// Resets a context, once all below it is gone: `MemoryContextReset`.
    ///
    /// `Protected` comes for one of the session's own, and then `InUse` where the current context would go. It takes no
    /// memory.
    pub fn reset<E: Emit>(
        &mut self,
        space: &mut Space,
        shelf: &mut Shelf<H>,
        at: CtxId,
        out: &mut E,
    ) -> Result<(), TreeError>
        requires keeps { Keeps self.old space.old }
        requires stands { (c : CommonState) × StandsIn self.old space.old shelf.old c }
        requires live { IsLive self.old.tree at }
        ensures answer { error_of result ≡ reset_refusal at.number self.old.tree.current.number (contexts_in self.old space.old) }
        ensures acted { OnOk result ((c : CommonState) → Acted (context_cleared at.number) self.old self.new space.old space.new shelf.old shelf.new c c (λ events. E.emits out.old events out.new)) }
        ensures alone { (c : CommonState) → ContextsAlone self.old self.new space.old space.new c c }
        ensures asked { Asks self.old.tree.account 0 space.old space.new }
        ensures refused { OnErr result ((c : CommonState) → Refused self.old self.new space.old space.new shelf.old shelf.new c c) }
        ensures silent { OnErr result (out.new ≡ out.old) }
    {
        self.tree.reset(space, shelf, at, out)
    }

    /// Resets a context and nothing below it: `MemoryContextResetOnly`.
    ///
    /// `Protected` comes for one of the session's own. It takes no memory.
    pub fn reset_only<E: Emit>(
        &mut self,
        space: &mut Space,
        shelf: &mut Shelf<H>,
        at: CtxId,
        out: &mut E,
    ) -> Result<(), TreeError>
        requires keeps { Keeps self.old space.old }
        requires stands { (c : CommonState) × StandsIn self.old space.old shelf.old c }
        requires live { IsLive self.old.tree at }
        ensures answer { error_of result ≡ reset_only_refusal at.number (contexts_in self.old space.old) }
        ensures acted { OnOk result ((c : CommonState) → Acted (context_cleared_alone at.number) self.old self.new space.old space.new shelf.old shelf.new c c (λ events. E.emits out.old events out.new)) }
        ensures alone { (c : CommonState) → ContextsAlone self.old self.new space.old space.new c c }
        ensures asked { Asks self.old.tree.account 0 space.old space.new }
        ensures refused { OnErr result ((c : CommonState) → Refused self.old self.new space.old space.new shelf.old shelf.new c c) }
        ensures silent { OnErr result (out.new ≡ out.old) }
    {
        self.tree.reset_only(space, shelf, at, out)
    }

    /// Resets a context and nothing below it, be it one of the session's own: `MemoryContextResetOnly`. It takes no memory.
    pub fn clear_only<E: Emit>(
        &mut self,
        space: &mut Space,
        shelf: &mut Shelf<H>,
        at: CtxId,
        out: &mut E,
    )
        requires keeps { Keeps self.old space.old }
        requires stands { (c : CommonState) × StandsIn self.old space.old shelf.old c }
        requires live { IsLive self.old.tree at }
        ensures acted { (c : CommonState) → Acted (context_cleared_alone at.number) self.old self.new space.old space.new shelf.old shelf.new c c (λ events. E.emits out.old events out.new) }
        ensures alone { (c : CommonState) → ContextsAlone self.old self.new space.old space.new c c }
        ensures asked { Asks self.old.tree.account 0 space.old space.new }
    {
        self.tree.clear_only(space, shelf, at, out);
    }

    /// Deletes a context with all below it: `MemoryContextDelete`.
    ///
    /// `Protected` comes for one of the session's own, and then `InUse` where the current context would go. It takes no
    /// memory.
    pub fn delete<E: Emit>(
        &mut self,
        space: &mut Space,
        shelf: &mut Shelf<H>,
        at: CtxId,
        out: &mut E,
    ) -> Result<(), TreeError>
        requires keeps { Keeps self.old space.old }
        requires stands { (c : CommonState) × StandsIn self.old space.old shelf.old c }
        requires live { IsLive self.old.tree at }
        ensures answer { error_of result ≡ delete_refusal at.number self.old.tree.current.number (contexts_in self.old space.old) }
        ensures acted { OnOk result ((c : CommonState) → Acted (context_gone at.number) self.old self.new space.old space.new shelf.old shelf.new c c (λ events. E.emits out.old events out.new)) }
        ensures alone { (c : CommonState) → ContextsAlone self.old self.new space.old space.new c c }
        ensures asked { Asks self.old.tree.account 0 space.old space.new }
        ensures refused { OnErr result ((c : CommonState) → Refused self.old self.new space.old space.new shelf.old shelf.new c c) }
        ensures silent { OnErr result (out.new ≡ out.old) }
    {
        self.tree.delete(space, shelf, at, out)
    }

    /// Deletes all below a context: `MemoryContextDeleteChildren`. The answers are those of `reset`.
    pub fn delete_children<E: Emit>(
        &mut self,
        space: &mut Space,
        shelf: &mut Shelf<H>,
        at: CtxId,
        out: &mut E,
    ) -> Result<(), TreeError>
        requires keeps { Keeps self.old space.old }
        requires stands { (c : CommonState) × StandsIn self.old space.old shelf.old c }
        requires live { IsLive self.old.tree at }
        ensures answer { error_of result ≡ reset_refusal at.number self.old.tree.current.number (contexts_in self.old space.old) }
        ensures acted { OnOk result ((c : CommonState) → Acted (children_gone at.number) self.old self.new space.old space.new shelf.old shelf.new c c (λ events. E.emits out.old events out.new)) }
        ensures alone { (c : CommonState) → ContextsAlone self.old self.new space.old space.new c c }
        ensures asked { Asks self.old.tree.account 0 space.old space.new }
        ensures refused { OnErr result ((c : CommonState) → Refused self.old self.new space.old space.new shelf.old shelf.new c c) }
        ensures silent { OnErr result (out.new ≡ out.old) }
    {
        self.tree.delete_children(space, shelf, at, out)
    }
}
