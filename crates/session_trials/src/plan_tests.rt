//! What whole sessions say of plans.

use crate::saying::{acquire, before_exit, create, item, name, release, top};
use crate::{Played, outcome};
use pgs_command::{Command, PlanCommand, TransactionCommand, Work};
use pgs_step::{Error, KindId, What};
use session_core::StartError;
use std::alloc::Global;
use std::test::Fail;

/// A plan is dropped while there is a reference to it.
fn drop_referenced_plan(alloc: Global) -> Result<Played, StartError> {
    let commands = [
        Command::Transaction(TransactionCommand::Begin),
        Command::Work(Work::Plans(PlanCommand::Create(2))),
        Command::Work(Work::Plans(PlanCommand::Reference(2))),
        Command::Work(Work::Plans(PlanCommand::Drop(2))),
        Command::Transaction(TransactionCommand::Rollback),
    ];
    outcome(alloc, 0, commands.as_slice())
}

#[test]
fn the_last_reference_takes_a_dropped_plan_with_it(rt: HostRuntime) -> Result<(), Fail> {
    let plan = name(b"CachedPlan")?;
    let played = drop_referenced_plan(rt.alloc())?;
    let reference = item(KindId::PLAN_REFERENCE, 2, 1);
    let events = [
        What::BeginLevel(1),
        create(6, top(), 1),
        What::Owner(1),
        What::Ok,
        create(7, plan, 3),
        What::Ok,
        acquire(reference, 1),
        What::Ok,
        What::Ok,
        What::AbortLevel(1),
        release(reference, 1),
        What::Delete(7),
        What::CleanupLevel(1),
        What::OwnerGone(1),
        What::Delete(6),
        What::Ok,
    ];
    assert_eq!(rt; before_exit(&played), Some(events.as_slice()));
    assert_eq!(rt; (played.depth, played.held), (0, 0));
    Ok(())
}
