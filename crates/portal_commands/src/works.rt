//! The commands on portals, by what each asks for.
ghost use Rattle.std.specs.Prelude.{All};
ghost use Rattle.pgs_command.specs.Ranges.{IsPortalInRange};
ghost use Rattle.session_rules.specs.Standing.{IsAtRest, IsWorking};
ghost use Rattle.session_rules.specs.Works.{elements, portal_row};
ghost use Rattle.session_store.specs.State.{levels_of, portals_of};
ghost use Rattle.session_commands.specs.Answers.{refusal_of};
ghost use Rattle.session_commands.specs.Performed.{now, HasRoom, IsBetweenSteps, Performed, most_work};

use crate::ending::end_portal;
use crate::fetching::fetch;
use crate::making::make_portal;
use owner_kinds::ExtKind;
use pgs_command::PortalCommand;
use pgs_step::{Emit, Error};
use reset_callbacks::ResetHook;
use session_commands::Shared;
use session_store::Store;

/// What a command on portals does in a transaction that isn't aborted.
///
/// The error is that of the first check or fallible call that is refused, or that of a row that can't be made.
pub fn work_on_portals<H: ResetHook, K: ExtKind, E: Emit>(
    store: &mut Store<H>,
    command: &PortalCommand,
    shared: &mut Shared<'_, H, K>,
    out: &mut E,
) -> Result<(), Error>
    requires between { IsBetweenSteps (now store.old shared.old) }
    requires active { IsWorking (levels_of store.old.levels) }
    requires rest { All IsAtRest (portals_of store.old.portals) }
    requires range { IsPortalInRange command.now }
    requires room { HasRoom most_work (now store.old shared.old) }
    ensures performed { Performed most_work (elements (portal_row command.now (portals_of store.old.portals))) (now store.old shared.old) (now store.new shared.new) (λ events. E.emits out.old events out.new) (refusal_of result) }
{
    match command {
        PortalCommand::Open {
            name,
            object,
            rows,
            bad,
        } => make_portal(store, *name, *object, *rows, *bad, shared, out),
        PortalCommand::Fetch { name, count } => fetch(store, *name, *count, shared, out),
        PortalCommand::End(name) => end_portal(store, *name, shared, out),
    }
}
