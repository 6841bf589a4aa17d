//! What is done within a transaction, by what it is done to.
ghost use Rattle.std.specs.Prelude.{All};
ghost use Rattle.pgs_command.specs.Ranges.{IsWorkInRange};
ghost use Rattle.session_rules.specs.Standing.{IsAtRest, IsWorking};
ghost use Rattle.session_rules.specs.Works.{elements, row_of};
ghost use Rattle.session_store.specs.State.{levels_of, portals_of};
ghost use Rattle.session_commands.specs.Answers.{refusal_of};
ghost use Rattle.session_commands.specs.Performed.{now, HasRoom, IsBetweenSteps, Performed, most_work};

use owner_kinds::ExtKind;
use pgs_command::Work;
use pgs_step::{Emit, Error};
use portal_commands::work_on_portals;
use reset_callbacks::ResetHook;
use session_commands::{
    Shared, tell, work_on_chunks, work_on_contexts, work_on_items, work_on_locks, work_on_plans,
    work_on_snapshots,
};
use session_store::Store;

/// What is done in a transaction that isn't aborted.
///
/// The error is that of the first check or fallible call that is refused, `Raised` where that is what is asked for.
pub(crate) fn do_work<H: ResetHook, K: ExtKind, E: Emit>(
    store: &mut Store<H>,
    work: &Work,
    shared: &mut Shared<'_, H, K>,
    out: &mut E,
) -> Result<(), Error>
    requires between { IsBetweenSteps (now store.old shared.old) }
    requires active { IsWorking (levels_of store.old.levels) }
    requires rest { All IsAtRest (portals_of store.old.portals) }
    requires range { IsWorkInRange work.now }
    requires room { HasRoom most_work (now store.old shared.old) }
    ensures performed { Performed most_work (elements (row_of work.now (portals_of store.old.portals))) (now store.old shared.old) (now store.new shared.new) (λ events. E.emits out.old events out.new) (refusal_of result) }
{
    match work {
        Work::Raise => Err(Error::Raised),
        Work::Contexts(command) => work_on_contexts(store, command, shared, out),
        Work::Chunks(command) => work_on_chunks(store, command, shared, out),
        Work::Items(command) => work_on_items(store, command, shared, out),
        Work::Locks(command) => work_on_locks(store, command, shared, out),
        Work::Snapshots(command) => work_on_snapshots(store, command, shared, out),
        Work::Plans(command) => work_on_plans(store, command, shared, out),
        Work::Portals(command) => work_on_portals(store, command, shared, out),
        Work::Tells(command) => tell(store, command, shared, out),
    }
}
