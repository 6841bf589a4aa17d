//! What the ends of portals are made of: a portal's memory goes, its owner moves, and it changes or is there no more.
ghost use Rattle.std.specs.Prelude.{◌≡◌, ◌≢◌, ◌-◌, ◌<◌, ◌≤◌, ◌==◌, if◌then◌else◌, ℕ, All, length, drop, true, false, None, Some, IfSome, slice_get, slice_set, option_and_then};
ghost use Rattle.std.specs.Option.{option_map};
ghost use Rattle.addr_space.specs.Space.{Space};
ghost use Rattle.forest.specs.Forest.{Empty, Once, children, has, is_above};
ghost use Rattle.pgs_step.specs.declared.ids.OwnerId.{OwnerId as AnOwner};
ghost use Rattle.reset_callbacks.specs.ShelfState.{ShelfState};
ghost use Rattle.context_rules.specs.Refusals.{is_within};
ghost use Rattle.context_tree.specs.State.{HooksFit, IsLive};
ghost use Rattle.portal_store.specs.Portal.{moved_owner, sub_aborted, to_parent};
ghost use Rattle.portal_store.specs.Portals.{portal_named, without};
ghost use Rattle.session_owners.specs.ResourceState as owners;
ghost use Rattle.session_owners.specs.ResourceState.{owners_of};
ghost use Rattle.session_owners.specs.Commons.{CommonState};
ghost use Rattle.session_rules.specs.Acts.{children_gone, context_gone, where_there};
ghost use Rattle.session_rules.specs.Releases.{owner_moved};
ghost use Rattle.session_rules.specs.Portals.{is_ready};
ghost use Rattle.session_store.specs.State.{contexts_in, portals_of};
ghost use Rattle.session_store.specs.Placed.{PortalLies};
ghost use Rattle.session_store.specs.Calls.{Acted, Keeps, PortalsAlone};
ghost use Rattle.session_ends.specs.Portals.{GoesOut};

use crate::parts::{clear_below, drop_context, move_owner};
use addr_space::Space;
use pgs_step::{CtxId, Emit, Name, OwnerId};
use portal_store::{Portal, PortalState};
use reset_callbacks::{ResetHook, Shelf};
use session_store::Store;

/// The first of this many last portals, where there are so many.
pub(crate) fn portal_at<H: ResetHook>(store: &Store<H>, left: usize) -> Option<Portal>
    requires { left ≤ length store.now.portals }
    ensures portal { result ≡ slice_get store.now.portals (length store.now.portals - left) }
    ensures lies { IfSome result (PortalLies store.now.tree store.now.owners) }
{
    store.portals.at(store.portals.len() - left).copied()
}

/// The first of this many last portals, where they are more than so many others.
#[inline]
pub(crate) fn touched_at<H: ResetHook>(store: &Store<H>, left: usize, rest: usize) -> Option<Portal>
    requires { left ≤ length store.now.portals }
    ensures portal { IfSome result (λ p. slice_get store.now.portals (length store.now.portals - left) ≡ Some p) }
    ensures none { result ≡ None → left ≤ rest }
    ensures lies { IfSome result (PortalLies store.now.tree store.now.owners) }
{
    if left <= rest {
        return None;
    }
    portal_at(store, left)
}

/// How many portals, the last ones, the end of the level of this number isn't about: none of them was made there or is active there.
pub(crate) fn untouched<H: ResetHook>(store: &Store<H>, level: u32) -> usize
    ensures at_most { result ≤ length store.now.portals }
    ensures others { All (λ p. (p.created < level) × (p.active < level)) (drop (length store.now.portals - result) (portals_of store.now.portals)) }
{
    store.portals.len() - store.portals.touched(level)
}

/// All portals but so many last ones were dealt with at the end of a level.
pub(crate) fn settled<H: ResetHook>(store: &mut Store<H>, rest: usize)
    requires { rest ≤ length store.old.portals }
    ensures { store.new ≡ store.old }
{
    store.portals.settle(store.portals.len() - rest);
}

/// The portal of this name.
pub(crate) fn found<H: ResetHook>(store: &Store<H>, name: &Name) -> Option<Portal>
    ensures portal { result ≡ portal_named name.now store.now.portals }
    ensures lies { IfSome result (PortalLies store.now.tree store.now.owners) }
{
    store.portals.get(name).copied()
}

/// The context of a portal of this level.
pub(crate) fn context_of(portal: &Portal, level: u32) -> Option<CtxId>
    ensures { result ≡ (if portal.now.created == level then portal.now.context else None) }
{
    if portal.created == level {
        return portal.context;
    }
    None
}

/// The owner of a portal of this level.
pub(crate) fn owner_of(portal: &Portal, level: u32) -> Option<OwnerId>
    ensures { result ≡ (if portal.now.created == level then portal.now.owner else None) }
{
    if portal.created == level {
        return portal.owner;
    }
    None
}

/// The owner of a portal whose executor runs.
pub(crate) fn running(portal: &Portal) -> Option<OwnerId>
    ensures { result ≡ (if is_ready portal.now.state then portal.now.owner else None) }
{
    match portal.state {
        PortalState::Ready => portal.owner,
        PortalState::New | PortalState::Failed => None,
    }
}

/// A portal's context goes with all below it, where there is one.
pub(crate) fn drop_memory<H: ResetHook, E: Emit>(
    store: &mut Store<H>,
    context: Option<CtxId>,
    space: &mut Space,
    shelf: &mut Shelf<H>,
    out: &mut E,
)
    requires keeps { Keeps store.old space.old }
    requires hooks { HooksFit (contexts_in store.old space.old) shelf.old }
    requires live { IfSome context (IsLive store.old.tree) }
    requires apart { IfSome context (λ id. is_within id.number store.old.tree.current.number (contexts_in store.old space.old) ≡ false) }
    ensures acted { (c : CommonState) → Acted (λ scene. where_there (option_map (λ id. id.number) context) context_gone scene) store.old store.new space.old space.new shelf.old shelf.new c c (λ events. E.emits out.old events out.new) }
    ensures out { GoesOut store.old store.new space.old space.new }
    ensures owners { store.new.owners ≡ store.old.owners }
    ensures portals { store.new.portals ≡ store.old.portals }
{
    drop_context(&mut store.tree, space, shelf, context, out);
}

/// All below a portal's context goes, where there is one.
pub(crate) fn clear_memory<H: ResetHook, E: Emit>(
    store: &mut Store<H>,
    context: Option<CtxId>,
    space: &mut Space,
    shelf: &mut Shelf<H>,
    out: &mut E,
)
    requires keeps { Keeps store.old space.old }
    requires hooks { HooksFit (contexts_in store.old space.old) shelf.old }
    requires live { IfSome context (IsLive store.old.tree) }
    requires apart { IfSome context (λ id. is_above id.number store.old.tree.current.number (contexts_in store.old space.old) ≡ false) }
    requires once { Once (contexts_in store.old space.old) }
    ensures acted { (c : CommonState) → Acted (λ scene. where_there (option_map (λ id. id.number) context) children_gone scene) store.old store.new space.old space.new shelf.old shelf.new c c (λ events. E.emits out.old events out.new) }
    ensures out { GoesOut store.old store.new space.old space.new }
    ensures owners { store.new.owners ≡ store.old.owners }
    ensures portals { store.new.portals ≡ store.old.portals }
{
    clear_below(&mut store.tree, space, shelf, context, out);
}

/// A portal's owner moves to another one, where both are there.
pub(crate) fn move_to<H: ResetHook, E: Emit>(
    store: &mut Store<H>,
    owner: Option<OwnerId>,
    to: Option<OwnerId>,
    out: &mut E,
)
    requires live { IfSome owner (owners.IsLive store.old.owners) }
    requires to { IfSome to (owners.IsLive store.old.owners) }
    requires there { IfSome owner (λ o. has o.number (owners_of store.old.owners) ≡ true) }
    requires to_there { IfSome to (λ t. has t.number (owners_of store.old.owners) ≡ true) }
    requires other { IfSome owner (λ o. IfSome to (λ t. t.number ≢ o.number)) }
    requires lone { IfSome owner (λ o. children o.number (owners_of store.old.owners) ≡ Empty) }
    requires once { Once (owners_of store.old.owners) }
    ensures acted { (s : Space) (x : ShelfState) (c : CommonState) → Acted (λ scene. where_there (option_map (λ o. o.number) owner) (λ o. where_there (option_map (λ t. t.number) to) (owner_moved o)) scene) store.old store.new s s x x c c (λ events. E.emits out.old events out.new) }
    ensures out { (s : Space) → Keeps store.old s → GoesOut store.old store.new s s }
    ensures tree { store.new.tree ≡ store.old.tree }
    ensures portals { store.new.portals ≡ store.old.portals }
    ensures stays { (id : AnOwner) → owners.IsLive store.old.owners id → owners.IsLive store.new.owners id }
{
    move_owner(&mut store.owners, owner, to, out);
}

/// The level of this number is merged into the one above it: what that means for the levels of the first of this many last portals.
pub(crate) fn pass<H: ResetHook>(store: &mut Store<H>, left: usize, level: u32)
    requires some { 0 < left }
    requires left { left ≤ length store.old.portals }
    requires level { 0 < level }
    ensures portal { IfSome (slice_get store.old.portals (length store.old.portals - left)) (λ portal. store.new.portals ≡ slice_set store.old.portals (length store.old.portals - left) (to_parent level portal)) }
    ensures alone { PortalsAlone store.old store.new }
{
    store.portals.pass_at(store.portals.len() - left, level);
}

/// The level of this number is aborted: what that means for the first of this many last portals, and the owner that it gives up.
pub(crate) fn sub_abort<H: ResetHook>(
    store: &mut Store<H>,
    left: usize,
    level: u32,
) -> Option<OwnerId>
    requires some { 0 < left }
    requires left { left ≤ length store.old.portals }
    ensures portal { IfSome (slice_get store.old.portals (length store.old.portals - left)) (λ portal. store.new.portals ≡ slice_set store.old.portals (length store.old.portals - left) (sub_aborted level portal)) }
    ensures moved { result ≡ option_and_then (moved_owner level) (slice_get store.old.portals (length store.old.portals - left)) }
    ensures alone { PortalsAlone store.old store.new }
{
    store.portals.sub_abort(store.portals.len() - left, level)
}

/// The portal of this name is there no more.
pub(crate) fn take_out<H: ResetHook>(store: &mut Store<H>, name: &Name)
    ensures portals { store.new.portals ≡ without name.now store.old.portals }
    ensures alone { PortalsAlone store.old store.new }
{
    let _ = store.portals.take_out(name);
}
