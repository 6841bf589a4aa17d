//! Where the contexts of a session's plans lie.
ghost use Rattle.std.specs.Prelude.{◌≡◌, refl};
ghost use Rattle.std.proofs.Common.{◌∙◌};
ghost use Rattle.context_tree.specs.State.{stands_for};
ghost use Rattle.session_ends.specs.Place.{CanGo, GoesOn};

use addr_space::Space;
use context_tree::ContextTree;
use pgs_step::{CtxId, Emit};
use reset_callbacks::{ResetHook, Shelf};
use session_owners::PlanContexts;

/// The contexts of a session, the space that they lie in and the hooks of the run, for one release.
#[derive(Drop)]
pub(crate) struct Place<'a, H: ResetHook> {
    pub(crate) tree: &'a mut ContextTree<H>,
    pub(crate) space: &'a mut Space,
    pub(crate) shelf: &'a mut Shelf<H>,
}

impl<'a, H: ResetHook> PlanContexts for Place<'a, H> {
    ghost contexts = { λ place. stands_for place.tree.now place.space.now };

    ghost shelf = { λ place. place.shelf.now };

    ghost MayGo = { λ place id. CanGo place.tree.now place.space.now place.shelf.now id };

    ghost went = { λ a b. (b.tree.ghost_name ≡ a.tree.ghost_name) × (b.space.ghost_name ≡ a.space.ghost_name) × (b.shelf.ghost_name ≡ a.shelf.ghost_name) × GoesOn a.tree.now b.tree.now a.space.now b.space.now };

    fn drop_context<E: Emit>(&mut self, at: CtxId, out: &mut E) {
        self.tree.gone(self.space, self.shelf, at, out);
    }

    ghost use Rattle.session_ends.specs.PlaceLaws.{goes_nothing, goes_more};

    ghost went_nothing = { λ a. (refl, refl, refl, goes_nothing a.tree.now a.space.now) };

    ghost went_more = { λ a b c p q. (q.0 ∙ p.0, q.1 ∙ p.1, q.2 ∙ p.2, goes_more a.tree.now b.tree.now c.tree.now a.space.now b.space.now c.space.now p.3 q.3) };
}
