//! `fetch`: rows are fetched from a portal.
ghost use Rattle.std.specs.Prelude.{◌≡◌, ◌*◌, [], ◌∷◌, ◌++◌, List, Some, None, IfOk, IfErr};
ghost use Rattle.exec_core.specs.declared.scan.Scan.{Scan as AScan};
ghost use Rattle.pgs_command.specs.Ranges.{IsPortalInRange};
ghost use Rattle.pgs_step.specs.declared.events.What.TheVariants as what;
ghost use Rattle.session_rules.specs.Elements as e;
ghost use Rattle.session_rules.specs.Elements.{Element};
ghost use Rattle.session_rules.specs.Standing.{IsWorking};
ghost use Rattle.session_rules.specs.Works.{elements, fetch_steps, portal_row};
ghost use Rattle.session_store.specs.State.{levels_of, portals_of};
ghost use Rattle.portal_commands.specs.Fetching.{IsAt, IsFetching};
ghost use Rattle.session_commands.specs.Answers.{refusal_of};
ghost use Rattle.session_commands.specs.Performed.{now, HasRoom, IsBetweenSteps, Performed, most_work};

use crate::turns::{FetchedPortal, take_turn};
use owner_kinds::ExtKind;
use pgs_command::PortalCommand;
use pgs_step::{Emit, Error, Name, What};
use portal_store::PortalState;
use reset_callbacks::ResetHook;
use session_commands::Shared;
use session_ends::{begin_fetch, place_of, portal_at};
use session_store::Store;

/// `fetch`: at most so many rows are fetched from a portal: `PortalRunFetch`. The scan takes a turn for each row, and one more where it ends.
///
/// `NoSuchPortal` comes where no portal has the name, `PortalFailed` where it has failed, and then what a turn is refused by, which
/// fails the portal: `BadRow` at a row that can't be made, `OutOfSpace` where a block for its memory doesn't fit.
pub(crate) fn fetch<H: ResetHook, K: ExtKind, E: Emit>(
    store: &mut Store<H>,
    name: Name,
    count: u32,
    shared: &mut Shared<'_, H, K>,
    out: &mut E,
) -> Result<(), Error>
    requires between { IsBetweenSteps (now store.old shared.old) }
    requires active { IsWorking (levels_of store.old.levels) }
    requires range { IsPortalInRange (PortalCommand.Fetch name count) }
    requires room { HasRoom most_work (now store.old shared.old) }
    ensures performed { Performed most_work (elements (portal_row (PortalCommand.Fetch name count) (portals_of store.old.portals))) (now store.old shared.old) (now store.new shared.new) (λ events. E.emits out.old events out.new) (refusal_of result) }
{
    let Some(place) = place_of(store, &name) else {
        return Err(Error::NoSuchPortal);
    };
    let Some(portal) = portal_at(store, place) else {
        unreachable!()
    };
    if let PortalState::Failed = portal.state {
        return Err(Error::PortalFailed);
    }
    begin_fetch(store, place);
    let portal = FetchedPortal { name, place };
    let rows = fetch_rows(store, &portal, count, shared, out)?;
    out.emit(What::Fetched { portal: name, rows });
    Ok(())
}

/// Fetches at most so many rows, and tells how many these were.
fn fetch_rows<H: ResetHook, K: ExtKind, E: Emit>(
    store: &mut Store<H>,
    portal: &FetchedPortal,
    count: u32,
    shared: &mut Shared<'_, H, K>,
    out: &mut E,
) -> Result<u32, Error>
    requires fetching { (scan : AScan) × IsFetching portal.now.name scan (now store.old shared.old) }
    requires place { IsAt portal.now.name portal.now.place store.old }
    requires room { HasRoom (3 * count) (now store.old shared.old) }
    ensures fetched { IfOk result (λ rows. (scan : AScan) → IsFetching portal.now.name scan (now store.old shared.old) → (done : List Element) × (fetch_steps portal.now.name count scan 0 ≡ done ++ (e.Says (what.Fetched portal.now.name rows) ∷ [])) × Performed (3 * count) done (now store.old shared.old) (now store.new shared.new) (λ events. E.emits out.old events out.new) None) }
    ensures refused { IfErr result (λ error. (scan : AScan) → IsFetching portal.now.name scan (now store.old shared.old) → Performed (3 * count) (fetch_steps portal.now.name count scan 0) (now store.old shared.old) (now store.new shared.new) (λ events. E.emits out.old events out.new) (Some error)) }
{
    let mut rows = 0;
    while rows < count {
        match take_turn(store, portal, shared, out) {
            Ok(true) => rows += 1,
            Ok(false) => return Ok(rows),
            Err(error) => return Err(error),
        }
    }
    Ok(rows)
}
