//! The plans of a session are made, and referred to.
ghost use Rattle.std.specs.Prelude.{◌≡◌, ◌≢◌, ◌⊎◌, ℕ, ◌<◌, ◌≤◌, ◌^◌, not, length, true, false, is_some, Some, None, IfErr, OnOk, OnErr};
ghost use Rattle.std.specs.Option.{option_map_or};
ghost use Rattle.addr_space.specs.Space.{Space, Asks};
ghost use Rattle.any_ctx.specs.Kinds.{first_size};
ghost use Rattle.any_ctx.specs.declared.any.CtxKind.TheVariants as kind;
ghost use Rattle.reset_callbacks.specs.ShelfState.{ShelfState};
ghost use Rattle.plan_store.specs.Plans.{is_usable};
ghost use Rattle.context_tree.specs.Making.{AsksInVain};
ghost use Rattle.session_owners.specs.ResourceState.{IsLive, has_begun, owners_of, spare_of};
ghost use Rattle.session_owners.specs.Commons.{CommonState};
ghost use Rattle.session_rules.specs.State.{plan_reference};
ghost use Rattle.session_rules.specs.Lookup.{plan_at};
ghost use Rattle.session_rules.specs.Making.{plan_made};
ghost use Rattle.session_rules.specs.Taking.{item_taken};
ghost use Rattle.session_store.specs.State.{contexts_in, left_in, session_of};
ghost use Rattle.session_store.specs.Calls.{Acted, BothAlone, Keeps, StandsIn, Unmade};
ghost use Rattle.session_store.specs.Owned.{OwnersAlone};
ghost use Rattle.session_store.specs.Plans.{plan_refusal};

use crate::store::Store;
use addr_space::Space;
use any_ctx::CtxKind;
use context_rules::TreeError;
use context_tree::own_name;
use pgs_step::{Emit, OwnerId};
use plan_store::PlanError;
use reset_callbacks::ResetHook;
use std::alloc::AllocError;

/// Why no room for a plan was reserved, as the answer of the making.
fn making_error(error: PlanError) -> TreeError
    requires { (error ≡ PlanError.TooMany) ⊎ (error ≡ PlanError.Memory) }
    ensures too_many { error ≡ PlanError.TooMany → result ≡ TreeError.TooMany }
    ensures memory { error ≡ PlanError.Memory → result ≡ TreeError.Memory }
{
    match error {
        PlanError::TooMany => TreeError::TooMany,
        _ => TreeError::Memory,
    }
}

impl<H: ResetHook> Store<H> {
    /// Whether a plan of this number stands, discarded or not.
    pub fn has_plan(&self, plan: u32) -> bool
        ensures { (s : Space) → result ≡ is_some (plan_at plan (session_of self.now s).plans) }
    {
        self.owners.has_plan(plan)
    }

    /// Whether a plan of this number stands that isn't discarded.
    pub fn can_refer(&self, plan: u32) -> bool
        ensures usable { result ≡ is_usable self.now.owners.plans plan }
        ensures session { (s : Space) → result ≡ option_map_or (λ p. not p.discarded) (plan_at plan (session_of self.now s).plans) false }
    {
        self.owners.can_refer(plan)
    }

    /// Makes a plan, with a context of its own below that of what lives as long as the session: `CreateCachedPlan`.
    ///
    /// `TooMany` comes where 1,024 plans stand, and then where 65,536 contexts live, and then `Ctx(NoSpace)` where the first
    /// block of its context doesn't fit; `Memory` may come in place of any of them.
    pub fn make_plan<E: Emit>(
        &mut self,
        space: &mut Space,
        plan: u32,
        out: &mut E,
    ) -> Result<(), TreeError>
        requires keeps { Keeps self.old space.old }
        requires stands { (x : ShelfState) × ((c : CommonState) × StandsIn self.old space.old x c) }
        requires new { plan_at plan (session_of self.old space.old).plans ≡ None }
        requires room { self.old.tree.next < 2 ^ 62 }
        ensures acted { OnOk result ((x : ShelfState) (c : CommonState) → Acted (plan_made plan) self.old self.new space.old space.new x x c c (λ events. E.emits out.old events out.new)) }
        ensures alone { (c : CommonState) → BothAlone self.old self.new space.old space.new c c }
        ensures asked { OnOk result (Asks self.old.tree.account (first_size kind.Small) space.old space.new) }
        ensures served { OnOk result (plan_refusal (length self.old.owners.plans.standing) (left_in self.old space.old) (contexts_in self.old space.old) ≡ None) }
        ensures cause { IfErr result (λ e. (e ≡ TreeError.Memory) ⊎ (plan_refusal (length self.old.owners.plans.standing) (left_in self.old space.old) (contexts_in self.old space.old) ≡ Some e)) }
        ensures refused { OnErr result ((x : ShelfState) (c : CommonState) → Unmade self.old self.new space.old space.new x x c c) }
        ensures err_asked { IfErr result (λ e. AsksInVain e self.old.tree.account (first_size kind.Small) space.old space.new) }
        ensures silent { OnErr result (out.new ≡ out.old) }
    {
        if let Err(error) = self.owners.reserve_plan(plan) {
            return Err(making_error(error));
        }
        let cache = self.tree.cache();
        let name = own_name(b"CachedPlan");
        match self
            .tree
            .create(space, cache, name, CtxKind::Small, true, out)
        {
            Ok(context) => {
                self.owners.make_plan(plan, context);
                Ok(())
            }
            Err(error) => Err(error),
        }
    }

    /// An owner refers to a plan that isn't discarded, in room that `enlarge` has made: `GetCachedPlan`. It fails for want of
    /// memory alone.
    pub fn reference_plan<E: Emit>(
        &mut self,
        owner: OwnerId,
        plan: u32,
        out: &mut E,
    ) -> Result<(), AllocError>
        requires live { IsLive self.old.owners owner }
        requires spare { 1 ≤ spare_of owner.number self.old.owners }
        requires not_begun { has_begun owner.number (owners_of self.old.owners) ≡ false }
        requires usable { is_usable self.old.owners.plans plan ≡ true }
        requires serial { self.old.owners.next_serial < 2 ^ 62 }
        ensures others { (other : ℕ) → other ≢ owner.number → spare_of other self.new.owners ≡ spare_of other self.old.owners }
        ensures acted { OnOk result ((s : Space) (x : ShelfState) (c : CommonState) → Acted (item_taken owner.number plan_reference plan) self.old self.new s s x x c c (λ events. E.emits out.old events out.new)) }
        ensures alone { OnOk result ((c : CommonState) → OwnersAlone self.old self.new c c) }
        ensures refused { OnErr result (self.new ≡ self.old) }
        ensures silent { OnErr result (out.new ≡ out.old) }
    {
        self.owners.reference_plan(owner, plan, out)
    }
}
