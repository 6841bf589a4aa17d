//! Where the contexts of a session's plans lie, as far as its resources see it.
ghost use Rattle.std.specs.Prelude.{◌≡◌, ◌≢◌};
ghost use Rattle.context_rules.specs.Contexts.{Contexts};
ghost use Rattle.context_rules.specs.Ends.{gone, handed_in};
ghost use Rattle.pgs_step.specs.declared.ids.CtxId.{CtxId as Id};
ghost use Rattle.reset_callbacks.specs.ShelfState.{ShelfState};

use pgs_step::{CtxId, Emit};

/// Has the contexts of a session, of which those of plans can go: the last reference to a discarded plan takes its context with it.
pub trait PlanContexts {
    ghost contexts: { Self → Contexts };

    ghost shelf: { Self → ShelfState };

    /// The context is there and can be deleted: nothing is below it, and it isn't the current one.
    ghost MayGo: { Self → Id → Type 0 };

    /// What a call did to the rest of the place.
    ghost went: { Self → Self → Type 0 };

    /// Deletes the context, whose callbacks run before it goes.
    fn drop_context<E: Emit>(&mut self, at: CtxId, out: &mut E)
        requires may { MayGo self.old at }
        ensures contexts { contexts self.new ≡ (gone at.number (contexts self.old)).contexts }
        ensures shelf { shelf self.new ≡ handed_in (gone at.number (contexts self.old)).hooks (shelf self.old) }
        ensures others { (other : Id) → other.number ≢ at.number → MayGo self.old other → MayGo self.new other }
        ensures went { went self.old self.new }
        ensures emits { E.emits out.old (gone at.number (contexts self.old)).events out.new };

    /// Nothing was done.
    ghost went_nothing: { (a : Self) → went a a };

    /// One thing was done behind another.
    ghost went_more: { (a b c : Self) → went a b → went b c → went a c };
}
