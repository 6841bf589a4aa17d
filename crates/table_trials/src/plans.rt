//! Each call once, each refusal, who must go, and 1,024 plans.
ghost use Rattle.std.specs.Prelude.{◌≡◌, ◌≤◌, [], None, OnOk};
ghost use Rattle.plan_store.specs.Plans.{references};

use pgs_step::CtxId;
use plan_store::{PlanError, PlanStore};

const CONTEXT: CtxId = CtxId { number: 7, slot: 3 };

/// What a call answers that may let a plan go: its context.
type Gone = Result<Option<CtxId>, PlanError>;

/// The plan 2, made and then referred to once.
fn refer(store: &mut PlanStore) -> Result<(), PlanError>
    requires { store.old ≡ record { standing = []; reserved = None } }
    ensures { OnOk result (references store.new ≡ 1) }
{
    store.reserve(2)?;
    store.make(2, CONTEXT);
    store.add_ref(2)
}

/// Whether the plan is usable, what its discard answers, and whether it stands and is usable then.
fn discarded(store: &mut PlanStore) -> (bool, Gone, bool, bool) {
    let before = store.usable(2);
    let gone = store.discard(2);
    (before, gone, store.stands(2), store.usable(2))
}

/// How many plans stand, what the last reference gives, and what stands then.
fn let_go(store: &mut PlanStore) -> (u64, Gone, bool, u64) {
    let before = store.count();
    let gone = store.drop_ref(2);
    (before, gone, store.stands(2), store.count())
}

#[test]
fn goes_with_the_last_reference(rt: HostRuntime) {
    let mut store = PlanStore::new(rt.alloc());
    refer(&mut store).expect(&rt, "it is served");
    assert!(rt; discarded(&mut store) == (true, Ok(None), true, false));
    assert!(rt; let_go(&mut store) == (1, Ok(Some(CONTEXT)), false, 0));
}

#[test]
fn holds_1024_plans(rt: HostRuntime) {
    let mut store = PlanStore::new(rt.alloc());
    for number in 0..1024 {
        store.reserve(number).expect(&rt, "it is served");
        store.make(number, CONTEXT);
    }
    assert!(rt; store.count() == 1024);
    assert!(rt; store.reserve(1024) == Err(PlanError::TooMany));
    assert!(rt; store.reserve(3) == Err(PlanError::Taken));
}
