//! A plan that is referred to once less, or that is discarded: where it goes, its context goes with it.
ghost use Rattle.std.specs.Prelude.{◌≡◌, ◌<◌, ◌≤◌, List, true};
ghost use Rattle.pgs_step.specs.declared.events.What.{What};
ghost use Rattle.plan_store.specs.Plans.{RefersAlike, RefersOneLess, is_usable, references, references_to};
ghost use Rattle.session_rules.specs.Releases.{plan_left};
ghost use Rattle.session_owners.specs.Hosting.{hosting_of};
ghost use Rattle.session_owners.specs.Placing.{plan_dropped, AreLeft, PlansDo, PlansFit};

use crate::place::PlanContexts;
use pgs_step::Emit;
use plan_store::PlanStore;

/// Gives a reference to a plan back. A discarded plan goes with its last reference.
pub(crate) fn leave<P: PlanContexts, E: Emit>(
    plans: &mut PlanStore,
    plan: u32,
    place: &mut P,
    out: &mut E,
)
    requires referred { 0 < references_to plans.old plan }
    requires fit { PlansFit (P.MayGo place.old) plans.old.standing }
    ensures counts { RefersOneLess plans.old plans.new plan }
    ensures fewer { references plans.new ≤ references plans.old }
    ensures reserved { plans.new.reserved ≡ plans.old.reserved }
    ensures done { (events : List What) × PlansDo (plan_left plan) events plans.old.standing plans.new.standing (hosting_of (P.contexts place.old) (P.shelf place.old)) (hosting_of (P.contexts place.new) (P.shelf place.new)) × E.emits out.old events out.new }
    ensures went { P.went place.old place.new }
    ensures fit { PlansFit (P.MayGo place.new) plans.new.standing }
    ensures left { AreLeft plans.old.standing plans.new.standing }
{
    plans.laws();
    match plans.drop_ref(plan) {
        Ok(Some(context)) => place.drop_context(context, out),
        Ok(None) => {}
        Err(_) => unreachable!(),
    }
}

/// Discards a plan. It goes at once where no reference to it is held.
pub(crate) fn discard<P: PlanContexts, E: Emit>(
    plans: &mut PlanStore,
    plan: u32,
    place: &mut P,
    out: &mut E,
)
    requires usable { is_usable plans.old plan ≡ true }
    requires fit { PlansFit (P.MayGo place.old) plans.old.standing }
    ensures counts { RefersAlike plans.old plans.new }
    ensures total { references plans.new ≡ references plans.old }
    ensures reserved { plans.new.reserved ≡ plans.old.reserved }
    ensures done { (events : List What) × PlansDo (plan_dropped plan) events plans.old.standing plans.new.standing (hosting_of (P.contexts place.old) (P.shelf place.old)) (hosting_of (P.contexts place.new) (P.shelf place.new)) × E.emits out.old events out.new }
    ensures went { P.went place.old place.new }
    ensures fit { PlansFit (P.MayGo place.new) plans.new.standing }
    ensures left { AreLeft plans.old.standing plans.new.standing }
{
    plans.laws();
    match plans.discard(plan) {
        Ok(Some(context)) => place.drop_context(context, out),
        Ok(None) => {}
        Err(_) => unreachable!(),
    }
}
