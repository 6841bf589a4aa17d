//! The steps by which a portal is made.
ghost use Rattle.std.specs.Prelude.{◌≡◌, [], ◌∷◌, Some, None, true, false, IsSome, OnOk};
ghost use Rattle.std.specs.Option.{option_and_then};
ghost use Rattle.addr_space.specs.Space.{Space};
ghost use Rattle.context_tree.specs.State.{IsLive};
ghost use Rattle.pgs_step.specs.declared.lock_modes.Mode.TheVariants as mode;
ghost use Rattle.portal_store.specs.Portals as list;
ghost use Rattle.reset_callbacks.specs.ShelfState.{ShelfState};
ghost use Rattle.session_owners.specs.Commons.{CommonState};
ghost use Rattle.session_owners.specs.Counted.{IsReference};
ghost use Rattle.session_owners.specs.ResourceState as owners;
ghost use Rattle.session_rules.specs.Limits.{portal_bytes};
ghost use Rattle.session_rules.specs.Elements as e;
ghost use Rattle.session_rules.specs.Elements.{InPortal, OfPortal, PortalContext, RowContext};
ghost use Rattle.session_rules.specs.Standing.{IsWorking};
ghost use Rattle.session_rules.specs.Lookup.{memory_in};
ghost use Rattle.session_rules.specs.Works.{takes};
ghost use Rattle.session_rules.specs.Standing.{IsWorking};
ghost use Rattle.session_store.specs.Calls.{StandsIn};
ghost use Rattle.session_store.specs.State.{levels_of, session_of};
ghost use Rattle.portal_commands.specs.Making.{IsMaking};
ghost use Rattle.session_commands.specs.Answers.{refusal_of};
ghost use Rattle.session_commands.specs.Deepest.{IsOwnerOf};
ghost use Rattle.session_commands.specs.Performed.{now, HasRoom, IsBetweenSteps, Performed};

use owner_core::OwnerError;
use owner_kinds::ExtKind;
use pgs_step::{CtxId, Emit, Error, KindId, Mode, Name, OwnerId};
use portal_store::PortalError;
use reset_callbacks::ResetHook;
use session_commands::{Shared, call_error, hold_lock, hold_reference};
use session_ends::{
    make_portal, make_portal_context, make_portal_owner, make_row_context, portal_named,
};
use session_store::Store;

/// How many bytes a portal takes in its context.
const PORTAL_BYTES: u64 = 200;

/// The portal is made.
pub(crate) fn new_portal<H: ResetHook, K: ExtKind>(
    store: &mut Store<H>,
    name: Name,
    object: u32,
    rows: u32,
    bad: Option<u32>,
    shared: &mut Shared<'_, H, K>,
) -> Result<(), Error>
    requires between { IsBetweenSteps (now store.old shared.old) }
    requires active { IsWorking (levels_of store.old.levels) }
    requires room { HasRoom 1 (now store.old shared.old) }
    requires new { list.portal_named name store.old.portals ≡ None }
    ensures performed { Performed 1 (e.MakePortal name object rows bad ∷ []) (now store.old shared.old) (now store.new shared.new) (λ events. events ≡ []) (refusal_of result) }
    ensures making { OnOk result (IsMaking name false false false (now store.new shared.new)) }
{
    shared.calls.next()?;
    match make_portal(store, name, object, rows, bad) {
        Ok(()) => Ok(()),
        Err(PortalError::TooMany) => Err(Error::LimitReached),
        Err(_) => Err(Error::NoMemory(shared.calls.count)),
    }
}

/// It gets its context.
pub(crate) fn make_context<H: ResetHook, K: ExtKind, E: Emit>(
    store: &mut Store<H>,
    name: &Name,
    shared: &mut Shared<'_, H, K>,
    out: &mut E,
) -> Result<(), Error>
    requires making { IsMaking name.now false false false (now store.old shared.old) }
    requires room { HasRoom 1 (now store.old shared.old) }
    ensures performed { Performed 1 (e.MakeContext (PortalContext name.now) ∷ []) (now store.old shared.old) (now store.new shared.new) (λ events. E.emits out.old events out.new) (refusal_of result) }
    ensures making { OnOk result (IsMaking name.now true false false (now store.new shared.new)) }
{
    shared.calls.next()?;
    if let Err(refusal) = make_portal_context(store, shared.space, name, out) {
        return Err(call_error(refusal, shared.calls.count));
    }
    Ok(())
}

/// It gets its owner.
pub(crate) fn make_owner<H: ResetHook, K: ExtKind, E: Emit>(
    store: &mut Store<H>,
    name: &Name,
    shared: &mut Shared<'_, H, K>,
    out: &mut E,
) -> Result<(), Error>
    requires making { IsMaking name.now true false false (now store.old shared.old) }
    requires room { HasRoom 1 (now store.old shared.old) }
    ensures performed { Performed 1 (e.MakeOwner (OfPortal name.now) ∷ []) (now store.old shared.old) (now store.new shared.new) (λ events. E.emits out.old events out.new) (refusal_of result) }
    ensures making { OnOk result (IsMaking name.now true true false (now store.new shared.new)) }
{
    shared.calls.next()?;
    match make_portal_owner(store, name, out) {
        Ok(()) => Ok(()),
        Err(OwnerError::TooMany) => Err(Error::LimitReached),
        Err(_) => Err(Error::NoMemory(shared.calls.count)),
    }
}

/// Its owner takes the lock on the object.
pub(crate) fn take_lock<H: ResetHook, K: ExtKind, E: Emit>(
    store: &mut Store<H>,
    name: &Name,
    object: u32,
    shared: &mut Shared<'_, H, K>,
    out: &mut E,
) -> Result<(), Error>
    requires making { IsMaking name.now true true false (now store.old shared.old) }
    requires room { HasRoom 1 (now store.old shared.old) }
    ensures performed { Performed 1 (e.TakeLock (OfPortal name.now) object mode.AccessShareLock ∷ []) (now store.old shared.old) (now store.new shared.new) (λ events. E.emits out.old events out.new) (refusal_of result) }
    ensures making { OnOk result (IsMaking name.now true true false (now store.new shared.new)) }
{
    let owner = owner_of(store, name);
    hold_lock(store, owner, object, Mode::AccessShareLock, shared, out)
}

/// Its owner takes a reference.
pub(crate) fn take_reference<H: ResetHook, K: ExtKind, E: Emit>(
    store: &mut Store<H>,
    name: &Name,
    kind: KindId,
    key: u32,
    shared: &mut Shared<'_, H, K>,
    out: &mut E,
) -> Result<(), Error>
    requires making { IsMaking name.now true true false (now store.old shared.old) }
    requires room { HasRoom 2 (now store.old shared.old) }
    requires kind { IsReference kind }
    ensures performed { Performed 2 (takes (OfPortal name.now) kind key) (now store.old shared.old) (now store.new shared.new) (λ events. E.emits out.old events out.new) (refusal_of result) }
    ensures making { OnOk result (IsMaking name.now true true false (now store.new shared.new)) }
{
    let owner = owner_of(store, name);
    hold_reference(store, owner, kind, key, shared, out)
}

/// Memory is taken in its context.
pub(crate) fn take_memory<H: ResetHook, K: ExtKind, E: Emit>(
    store: &mut Store<H>,
    name: &Name,
    shared: &mut Shared<'_, H, K>,
    out: &mut E,
) -> Result<(), Error>
    requires making { IsMaking name.now true true false (now store.old shared.old) }
    requires room { HasRoom 1 (now store.old shared.old) }
    ensures performed { Performed 1 (e.Alloc (InPortal name.now) None portal_bytes false ∷ []) (now store.old shared.old) (now store.new shared.new) (λ events. E.emits out.old events out.new) (refusal_of result) }
    ensures making { OnOk result (IsMaking name.now true true false (now store.new shared.new)) }
{
    let at = context_of(store, name);
    shared.calls.next()?;
    if let Err(refusal) = store.alloc_at(shared.space, at, None, PORTAL_BYTES) {
        return Err(call_error(refusal, shared.calls.count));
    }
    Ok(())
}

/// It gets the context of one row.
pub(crate) fn make_row<H: ResetHook, K: ExtKind, E: Emit>(
    store: &mut Store<H>,
    name: &Name,
    shared: &mut Shared<'_, H, K>,
    out: &mut E,
) -> Result<(), Error>
    requires making { IsMaking name.now true true false (now store.old shared.old) }
    requires room { HasRoom 1 (now store.old shared.old) }
    ensures performed { Performed 1 (e.MakeContext (RowContext name.now) ∷ []) (now store.old shared.old) (now store.new shared.new) (λ events. E.emits out.old events out.new) (refusal_of result) }
    ensures making { OnOk result (IsMaking name.now true true true (now store.new shared.new)) }
{
    shared.calls.next()?;
    if let Err(refusal) = make_row_context(store, shared.space, name, out) {
        return Err(call_error(refusal, shared.calls.count));
    }
    Ok(())
}

/// The owner of a portal that has one.
fn owner_of<H: ResetHook>(store: &Store<H>, name: &Name) -> OwnerId
    requires there { IsSome (option_and_then (λ p. p.owner) (list.portal_named name.now store.now.portals)) }
    ensures owner { IsOwnerOf (OfPortal name.now) store.now result }
    ensures live { (s : Space) (x : ShelfState) (c : CommonState) → StandsIn store.now s x c → owners.IsLive store.now.owners result }
{
    match portal_named(store, name) {
        Some(portal) => match portal.owner {
            Some(owner) => owner,
            None => unreachable!(),
        },
        None => unreachable!(),
    }
}

/// The context of a portal that has one.
fn context_of<H: ResetHook>(store: &Store<H>, name: &Name) -> CtxId
    requires there { IsSome (option_and_then (λ p. p.context) (list.portal_named name.now store.now.portals)) }
    ensures context { (s : Space) → memory_in (InPortal name.now) (session_of store.now s) ≡ Some result.number }
    ensures live { (s : Space) (x : ShelfState) (c : CommonState) → StandsIn store.now s x c → IsLive store.now.tree result }
{
    match portal_named(store, name) {
        Some(portal) => match portal.context {
            Some(context) => context,
            None => unreachable!(),
        },
        None => unreachable!(),
    }
}
