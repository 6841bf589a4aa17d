//! An owner that is released, active snapshots, and a plan whose context goes. Whole sessions are played in session_trials.
ghost use Rattle.std.specs.Prelude.{◌≡◌, ◌↔◌, ◌+◌, ◌<◌, ◌≤◌, ◌^◌, true, false, [], ◌∷◌, None, Some, IfOk, IfSome, OnOk};
ghost use Rattle.std.specs.Option.{option_map};
ghost use Rattle.forest.specs.Forest.{Empty, parent_of};
ghost use Rattle.session_owners.specs.ResourceState.{owners_of, AllAt, HoldsNothing, IsLive, created};
ghost use Rattle.session_owners.specs.Commons.{Serves};
ghost use Rattle.session_owners.specs.Placing.{PlansFit};
ghost use Rattle.plan_store.specs.Plans.{is_usable};

use owner_core::OwnerError;
use owner_kinds::{CountedKind, KindShelf};
use pgs_step::{CtxId, Emit, EventList, OwnerId, What};
use plan_store::PlanError;
use session_owners::{Commons, PlanContexts, Resources};
use snap_table::SnapError;
use std::alloc::{AllocError, Global};
use std::test::Fail;

/// No kind.
fn no_kinds(alloc: Global) -> Result<KindShelf<CountedKind>, AllocError> {
    KindShelf::new(alloc, Vec::new(alloc))
}

const CONTEXT: CtxId = CtxId { number: 7, slot: 3 };

/// Contexts of plans, of which only the last that went is known.
#[derive(Drop)]
struct Place {
    gone: Option<CtxId>,
}

impl PlanContexts for Place {
    ghost contexts = { λ place. Empty };

    ghost shelf = { λ place. record { fresh = []; spent = []; out = 0 } };

    ghost MayGo = { λ place id. Unit {0} };

    ghost went = { λ a b. Unit {0} };

    fn drop_context<E: Emit>(&mut self, at: CtxId, _out: &mut E) {
        self.gone = Some(at);
    }

    ghost went_nothing = { λ a. tt };

    ghost went_more = { λ a b c p q. tt };
}

/// A session's resources, the commons that serve them, and the contexts of its plans.
#[derive(Drop)]
struct Session {
    resources: Resources,
    commons: Commons<CountedKind>,
    place: Place,
}

impl Session {
    /// A session without owners, which has these kinds.
    fn new(alloc: Global, mut kinds: KindShelf<CountedKind>) -> Result<Session, AllocError>
        ensures owners { IfOk result (λ session. owners_of session.resources ≡ Empty) }
        ensures next_owner { IfOk result (λ session. session.resources.next_owner ≡ 1) }
        ensures next_serial { IfOk result (λ session. session.resources.next_serial ≡ 1) }
        ensures plans { IfOk result (λ session. session.resources.plans ≡ record { standing = []; reserved = None }) }
        ensures serves { IfOk result (λ session. Serves session.resources session.commons) }
    {
        let mut commons = Commons::new(alloc)?;
        commons.swap_kinds(&mut kinds);
        let resources = Resources::new(alloc, 1, 8)?;
        let _names = commons.names();
        Ok(Session {
            resources,
            commons,
            place: Place { gone: None },
        })
    }

    fn push(&mut self, snapshot: u32, level: u32, out: &mut EventList) -> Result<(), AllocError> {
        self.resources.push(snapshot, level, out)
    }

    fn pop(&mut self, level: u32, out: &mut EventList) -> Result<(), SnapError> {
        self.resources.pop(level, out)
    }

    fn lower_stack(&mut self, level: u32)
        requires { 1 ≤ level }
    {
        self.resources.lower_stack(level);
    }

    /// Makes a plan, the only one.
    fn make_plan(&mut self, plan: u32, context: CtxId) -> Result<(), PlanError>
        requires none { self.old.resources.plans.standing ≡ [] }
        ensures made { OnOk result (self.new.resources.plans.standing ≡ (plan, record { context = context; discarded = false; references = 0 }) ∷ []) }
    {
        self.resources.reserve_plan(plan)?;
        self.resources.make_plan(plan, context);
        Ok(())
    }

    fn drop_plan(&mut self, plan: u32, out: &mut EventList)
        requires usable { is_usable self.old.resources.plans plan ≡ true }
        requires fit { PlansFit (λ _. Unit {0}) self.old.resources.plans.standing }
    {
        self.resources.drop_plan(plan, &mut self.place, out);
    }
}

#[test]
fn the_first_owner_has_number_1(rt: HostRuntime) -> Result<(), Fail> {
    let mut out = EventList::new(rt.alloc(), 20)?;
    let mut session = Session::new(rt.alloc(), no_kinds(rt.alloc())?)?;
    let top = session.resources.make_owner(None, &mut out)?;
    assert_eq!(rt; top.number, 1);
    Ok(())
}

#[test]
fn active_snapshots_are_popped_at_their_level(rt: HostRuntime) -> Result<(), Fail> {
    let mut out = EventList::new(rt.alloc(), 20)?;
    let mut session = Session::new(rt.alloc(), no_kinds(rt.alloc())?)?;
    assert_eq!(rt; session.pop(1, &mut out), Err(SnapError::NotHeld));
    session.push(4, 2, &mut out)?;
    assert_eq!(rt; session.pop(1, &mut out), Err(SnapError::NotHeld));
    session.lower_stack(2);
    assert_eq!(rt; session.pop(1, &mut out), Ok(()));
    let events = [What::Push(4), What::Pop(4)];
    assert_eq!(rt; out.events(), events.as_slice());
    Ok(())
}

#[test]
fn a_plan_that_is_discarded_goes_with_its_context(rt: HostRuntime) -> Result<(), Fail> {
    let mut out = EventList::new(rt.alloc(), 20)?;
    let mut session = Session::new(rt.alloc(), no_kinds(rt.alloc())?)?;
    session.make_plan(3, CONTEXT)?;
    assert_eq!(rt; session.resources.can_refer(3), true);
    session.drop_plan(3, &mut out);
    assert_eq!(rt; session.place.gone, Some(CONTEXT));
    assert_eq!(rt; session.resources.has_plan(3), false);
    Ok(())
}
