//! The commands on plans.
ghost use Rattle.std.specs.Prelude.{◌≡◌, ◌≤◌, [], ◌∷◌, true, false};
ghost use Rattle.plan_store.specs.Plans.{is_usable};
ghost use Rattle.session_owners.specs.ResourceState.{IsLive, has_begun, owners_of, spare_of};
ghost use Rattle.session_rules.specs.Elements as e;
ghost use Rattle.session_rules.specs.Elements.{OfLevel};
ghost use Rattle.session_rules.specs.Standing.{IsWorking};
ghost use Rattle.session_rules.specs.State.{plan_reference};
ghost use Rattle.session_rules.specs.Works.{plan_row, elements};
ghost use Rattle.session_store.specs.Calls.{Keeps};
ghost use Rattle.session_store.specs.State.{levels_of};
ghost use Rattle.session_commands.specs.Answers.{refusal_of};
ghost use Rattle.session_commands.specs.Deepest.{IsLevelOwner};
ghost use Rattle.session_commands.specs.Performed.{now, HasRoom, IsBetweenSteps, Performed, most_calls};

use crate::errors::call_error;
use crate::shared::Shared;
use crate::steps::{enlarge, give_back, owner_of_level};
use owner_kinds::ExtKind;
use pgs_command::PlanCommand;
use pgs_step::{Emit, Error, KindId, OwnerId};
use reset_callbacks::ResetHook;
use session_ends::drop_plan;
use session_store::Store;

/// What a command on plans does in a transaction that isn't aborted.
pub fn work_on_plans<H: ResetHook, K: ExtKind, E: Emit>(
    store: &mut Store<H>,
    command: &PlanCommand,
    shared: &mut Shared<'_, H, K>,
    out: &mut E,
) -> Result<(), Error>
    requires between { IsBetweenSteps (now store.old shared.old) }
    requires active { IsWorking (levels_of store.old.levels) }
    requires room { HasRoom most_calls (now store.old shared.old) }
    ensures performed { Performed most_calls (elements (plan_row command.now)) (now store.old shared.old) (now store.new shared.new) (λ events. E.emits out.old events out.new) (refusal_of result) }
{
    match command {
        PlanCommand::Create(plan) => make_plan(store, *plan, shared, out),
        PlanCommand::Reference(plan) => reference_plan(store, *plan, shared, out),
        PlanCommand::Unreference(plan) => unreference_plan(store, *plan, shared, out),
        PlanCommand::Drop(plan) => discard_plan(store, *plan, shared, out),
    }
}

/// `plan`: a plan of this number is made, with a context of its own below that for caches: `CreateCachedPlan`.
///
/// `NameTaken` comes where a plan of the number stands, `LimitReached` where 1,024 plans stand or 65,536 contexts live, and
/// `OutOfSpace` where the first block of the context doesn't fit.
fn make_plan<H: ResetHook, K: ExtKind, E: Emit>(
    store: &mut Store<H>,
    plan: u32,
    shared: &mut Shared<'_, H, K>,
    out: &mut E,
) -> Result<(), Error>
    requires between { IsBetweenSteps (now store.old shared.old) }
    requires room { HasRoom most_calls (now store.old shared.old) }
    ensures performed { Performed most_calls (elements (plan_row (PlanCommand.Create plan))) (now store.old shared.old) (now store.new shared.new) (λ events. E.emits out.old events out.new) (refusal_of result) }
{
    if store.has_plan(plan) {
        return Err(Error::NameTaken);
    }
    shared.calls.next()?;
    if let Err(refusal) = store.make_plan(shared.space, plan, out) {
        return Err(call_error(refusal, shared.calls.count));
    }
    Ok(())
}

/// `planref`: the owner of the deepest level takes a reference to a plan: `GetCachedPlan`.
///
/// `NoSuchName` comes where no plan of the number stands, and where it is discarded.
fn reference_plan<H: ResetHook, K: ExtKind, E: Emit>(
    store: &mut Store<H>,
    plan: u32,
    shared: &mut Shared<'_, H, K>,
    out: &mut E,
) -> Result<(), Error>
    requires between { IsBetweenSteps (now store.old shared.old) }
    requires room { HasRoom most_calls (now store.old shared.old) }
    requires active { IsWorking (levels_of store.old.levels) }
    ensures performed { Performed most_calls (elements (plan_row (PlanCommand.Reference plan))) (now store.old shared.old) (now store.new shared.new) (λ events. E.emits out.old events out.new) (refusal_of result) }
{
    if !store.can_refer(plan) {
        return Err(Error::NoSuchName);
    }
    let owner = owner_of_level(store);
    enlarge(store, owner, shared)?;
    take_plan(store, owner, plan, shared, out)
}

/// `planunref`: the owner of the deepest level gives back its newest reference to a plan: `ReleaseCachedPlan`. The last reference to a
/// discarded plan takes the plan with it, and its context.
fn unreference_plan<H: ResetHook, K: ExtKind, E: Emit>(
    store: &mut Store<H>,
    plan: u32,
    shared: &mut Shared<'_, H, K>,
    out: &mut E,
) -> Result<(), Error>
    requires between { IsBetweenSteps (now store.old shared.old) }
    requires active { IsWorking (levels_of store.old.levels) }
    ensures performed { Performed most_calls (elements (plan_row (PlanCommand.Unreference plan))) (now store.old shared.old) (now store.new shared.new) (λ events. E.emits out.old events out.new) (refusal_of result) }
{
    give_back(store, KindId::PLAN_REFERENCE, plan, shared, out)
}

/// `plandrop`: a plan is discarded, and goes with its context once no reference to it is held: `DropCachedPlan`.
///
/// `NoSuchName` comes where no plan of the number stands, and where it is discarded already.
fn discard_plan<H: ResetHook, K: ExtKind, E: Emit>(
    store: &mut Store<H>,
    plan: u32,
    shared: &mut Shared<'_, H, K>,
    out: &mut E,
) -> Result<(), Error>
    requires between { IsBetweenSteps (now store.old shared.old) }
    ensures performed { Performed most_calls (elements (plan_row (PlanCommand.Drop plan))) (now store.old shared.old) (now store.new shared.new) (λ events. E.emits out.old events out.new) (refusal_of result) }
{
    if !store.can_refer(plan) {
        return Err(Error::NoSuchName);
    }
    drop_plan(store, plan, shared.space, shared.shelf, out);
    Ok(())
}

/// Takes a reference to a plan in room that was made before.
fn take_plan<H: ResetHook, K: ExtKind, E: Emit>(
    store: &mut Store<H>,
    owner: OwnerId,
    plan: u32,
    shared: &mut Shared<'_, H, K>,
    out: &mut E,
) -> Result<(), Error>
    requires keeps { Keeps store.old shared.old.space.now }
    requires room { HasRoom 1 (now store.old shared.old) }
    requires owner { IsLevelOwner store.old owner }
    requires live { IsLive store.old.owners owner }
    requires spare { 1 ≤ spare_of owner.number store.old.owners }
    requires not_begun { has_begun owner.number (owners_of store.old.owners) ≡ false }
    requires usable { is_usable store.old.owners.plans plan ≡ true }
    ensures performed { Performed 1 (e.Take OfLevel plan_reference plan ∷ []) (now store.old shared.old) (now store.new shared.new) (λ events. E.emits out.old events out.new) (refusal_of result) }
{
    shared.calls.next()?;
    if let Err(_) = store.reference_plan(owner, plan, out) {
        return Err(Error::NoMemory(shared.calls.count));
    }
    Ok(())
}
