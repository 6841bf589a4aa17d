//! `portal`: a query is opened under a name.
ghost use Rattle.std.specs.Prelude.{◌≡◌, [], ◌∷◌, ◌++◌, None, true, false, OnOk};
ghost use Rattle.portal_store.specs.Portals as list;
ghost use Rattle.session_rules.specs.Limits.{portal_bytes};
ghost use Rattle.session_rules.specs.Elements as e;
ghost use Rattle.session_rules.specs.Elements.{InPortal, OfPortal, PortalContext, RowContext};
ghost use Rattle.session_rules.specs.Standing.{IsWorking};
ghost use Rattle.session_rules.specs.State.{relcache_reference, snapshot_reference};
ghost use Rattle.session_rules.specs.Works.{elements, portal_row, takes};
ghost use Rattle.session_store.specs.State.{levels_of, portals_of};
ghost use Rattle.pgs_step.specs.declared.lock_modes.Mode.TheVariants as mode;
ghost use Rattle.portal_commands.specs.Making.{IsMaking};
ghost use Rattle.session_commands.specs.Answers.{refusal_of};
ghost use Rattle.session_commands.specs.Performed.{now, HasRoom, IsBetweenSteps, Performed, most_work};

use crate::steps::{
    make_context, make_owner, make_row, new_portal, take_lock, take_memory, take_reference,
};
use owner_kinds::ExtKind;
use pgs_command::PortalCommand;
use pgs_step::{Emit, Error, KindId, Name};
use reset_callbacks::ResetHook;
use session_commands::Shared;
use session_ends::{portal_named, portal_ready};
use session_store::Store;

/// `portal`: a query is opened under a name, over a scan of an object: `CreatePortal` and `PortalStart`. Its portal gets a context, an owner, which
/// holds the lock on the object, a reference to it and one to a snapshot, and the context of one row.
///
/// `PortalTaken` comes where a portal has the name, `LimitReached` where there are 1,024 portals, or 65,536 contexts or owners,
/// `LockHeld` where another session holds the object in a mode that conflicts, and `OutOfSpace` where a block doesn't fit.
pub(crate) fn make_portal<H: ResetHook, K: ExtKind, E: Emit>(
    store: &mut Store<H>,
    name: Name,
    object: u32,
    rows: u32,
    bad: Option<u32>,
    shared: &mut Shared<'_, H, K>,
    out: &mut E,
) -> Result<(), Error>
    requires between { IsBetweenSteps (now store.old shared.old) }
    requires active { IsWorking (levels_of store.old.levels) }
    requires room { HasRoom most_work (now store.old shared.old) }
    ensures performed { Performed most_work (elements (portal_row (PortalCommand.Open name object rows bad) (portals_of store.old.portals))) (now store.old shared.old) (now store.new shared.new) (λ events. E.emits out.old events out.new) (refusal_of result) }
{
    if portal_named(store, &name).is_some() {
        return Err(Error::PortalTaken);
    }
    begin(store, name, object, rows, bad, shared, out)?;
    hold(store, &name, object, shared, out)?;
    finish(store, &name, shared, out)
}

/// The portal is made, with its context and its owner.
fn begin<H: ResetHook, K: ExtKind, E: Emit>(
    store: &mut Store<H>,
    name: Name,
    object: u32,
    rows: u32,
    bad: Option<u32>,
    shared: &mut Shared<'_, H, K>,
    out: &mut E,
) -> Result<(), Error>
    requires between { IsBetweenSteps (now store.old shared.old) }
    requires active { IsWorking (levels_of store.old.levels) }
    requires room { HasRoom 3 (now store.old shared.old) }
    requires new { list.portal_named name store.old.portals ≡ None }
    ensures performed { Performed 3 (e.MakePortal name object rows bad ∷ e.MakeContext (PortalContext name) ∷ e.MakeOwner (OfPortal name) ∷ []) (now store.old shared.old) (now store.new shared.new) (λ events. E.emits out.old events out.new) (refusal_of result) }
    ensures making { OnOk result (IsMaking name true true false (now store.new shared.new)) }
{
    new_portal(store, name, object, rows, bad, shared)?;
    make_context(store, &name, shared, out)?;
    make_owner(store, &name, shared, out)
}

/// Its owner takes the lock on the object, a reference to it and one to a snapshot.
fn hold<H: ResetHook, K: ExtKind, E: Emit>(
    store: &mut Store<H>,
    name: &Name,
    object: u32,
    shared: &mut Shared<'_, H, K>,
    out: &mut E,
) -> Result<(), Error>
    requires making { IsMaking name.now true true false (now store.old shared.old) }
    requires room { HasRoom 5 (now store.old shared.old) }
    ensures performed { Performed 5 (e.TakeLock (OfPortal name.now) object mode.AccessShareLock ∷ (takes (OfPortal name.now) relcache_reference object ++ takes (OfPortal name.now) snapshot_reference object)) (now store.old shared.old) (now store.new shared.new) (λ events. E.emits out.old events out.new) (refusal_of result) }
    ensures making { OnOk result (IsMaking name.now true true false (now store.new shared.new)) }
{
    take_lock(store, name, object, shared, out)?;
    take_reference(store, name, KindId::RELCACHE_REFERENCE, object, shared, out)?;
    take_reference(store, name, KindId::SNAPSHOT_REFERENCE, object, shared, out)
}

/// Memory is taken in its context, the context of one row is made, and it is ready.
fn finish<H: ResetHook, K: ExtKind, E: Emit>(
    store: &mut Store<H>,
    name: &Name,
    shared: &mut Shared<'_, H, K>,
    out: &mut E,
) -> Result<(), Error>
    requires making { IsMaking name.now true true false (now store.old shared.old) }
    requires room { HasRoom 2 (now store.old shared.old) }
    ensures performed { Performed 2 (e.Alloc (InPortal name.now) None portal_bytes false ∷ e.MakeContext (RowContext name.now) ∷ e.PortalReady name.now ∷ []) (now store.old shared.old) (now store.new shared.new) (λ events. E.emits out.old events out.new) (refusal_of result) }
{
    take_memory(store, name, shared, out)?;
    make_row(store, name, shared, out)?;
    portal_ready(store, name);
    Ok(())
}
