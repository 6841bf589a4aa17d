//! `endportal`: a query is closed.
ghost use Rattle.std.specs.Prelude.{All};
ghost use Rattle.session_rules.specs.Standing.{IsAtRest, IsWorking};
ghost use Rattle.session_rules.specs.Works.{elements, portal_row};
ghost use Rattle.session_store.specs.State.{levels_of, portals_of};
ghost use Rattle.session_commands.specs.Answers.{refusal_of};
ghost use Rattle.session_commands.specs.Performed.{now, IsBetweenSteps, Performed, most_work};

use owner_kinds::ExtKind;
use pgs_command::PortalCommand;
use pgs_step::{Emit, Error, Name};
use reset_callbacks::ResetHook;
use session_commands::Shared;
use session_ends::portal_named;
use session_store::Store;

/// `endportal`: a query is closed: `PortalDrop`. Its owner gives back what it holds, and its contexts go.
///
/// `NoSuchPortal` comes where no portal has the name.
pub(crate) fn end_portal<H: ResetHook, K: ExtKind, E: Emit>(
    store: &mut Store<H>,
    name: Name,
    shared: &mut Shared<'_, H, K>,
    out: &mut E,
) -> Result<(), Error>
    requires between { IsBetweenSteps (now store.old shared.old) }
    requires active { IsWorking (levels_of store.old.levels) }
    requires rest { All IsAtRest (portals_of store.old.portals) }
    ensures performed { Performed most_work (elements (portal_row (PortalCommand.End name) (portals_of store.old.portals))) (now store.old shared.old) (now store.new shared.new) (λ events. E.emits out.old events out.new) (refusal_of result) }
{
    match portal_named(store, &name) {
        None => Err(Error::NoSuchPortal),
        Some(_) => {
            session_commands::end_portal(
                store,
                &name,
                shared.space,
                shared.shelf,
                shared.commons,
                out,
            );
            Ok(())
        }
    }
}
