//! Portals end, by themselves and with the levels.
ghost use Rattle.std.specs.Prelude.{◌≡◌, ◌<◌, ◌≤◌, ◌+◌, ◌-◌, ℕ, List, [], ◌∷◌, All, IfSome, false, length, slice_get, Some};
ghost use Rattle.std.specs.Option.{option_map};
ghost use Rattle.addr_space.specs.Space.{Space, Asks};
ghost use Rattle.forest.specs.Forest.{parent_of};
ghost use Rattle.pgs_step.specs.declared.ids.OwnerId.{OwnerId as AnOwner};
ghost use Rattle.reset_callbacks.specs.ShelfState.{ShelfState};
ghost use Rattle.context_tree.specs.State.{Moves};
ghost use Rattle.portal_store.specs.Portals.{portal_named};
ghost use Rattle.owner_core.specs.Owners.{has_begun};
ghost use Rattle.session_owners.specs.ResourceState as owners;
ghost use Rattle.session_owners.specs.ResourceState.{owners_of};
ghost use Rattle.session_owners.specs.Commons.{CommonState, Serves};
ghost use Rattle.session_rules.specs.Acts.{for_each, where_there};
ghost use Rattle.session_rules.specs.Parts.{at_portal};
ghost use Rattle.session_rules.specs.Portals.{portal_closed, portal_ended};
ghost use Rattle.session_rules.specs.Releases.{item_released};
ghost use Rattle.session_rules.specs.State.{OpenPortal, buffer_pin};
ghost use Rattle.session_rules.specs.Standing.{IsAtRest, IsWorking};
ghost use Rattle.session_store.specs.State.{levels_of, portal_state, portals_of};
ghost use Rattle.session_store.specs.Placed.{PortalLies};
ghost use Rattle.session_store.specs.Calls.{Acted, Keeps, StandsIn};
ghost use Rattle.session_ends.specs.Portals.{EndsSo, GoesOut, IsEnding, PlansMayGo, executor_at, left_by, none_left, number_in, owner_ended, owner_to, portal_after};

use crate::items::forget_item;
use crate::parts::{discard_owner, release_owner};
use crate::place::Place;
use crate::portal_parts::{
    clear_memory, context_of, drop_memory, found, move_to, owner_of, pass, portal_at, running,
    settled, sub_abort, take_out, touched_at, untouched,
};
use addr_space::Space;
use exec_core::Scan;
use owner_kinds::ExtKind;
use pgs_step::{Emit, KindId, Name, OwnerId};
use portal_store::Portal;
use reset_callbacks::{ResetHook, Shelf};
use session_owners::Commons;
use session_store::Store;

/// How the deepest level ends, as far as portals see it.
#[derive(Clone, Copy, Debug, PartialEq, Eq)]
pub(crate) enum LevelEnd {
    /// It is merged into the level above it, which has this owner.
    Merges(Option<OwnerId>),
    /// It aborts, and has this owner.
    Aborts(Option<OwnerId>),
    /// It is aborted, and is cleaned up.
    Goes,
}

/// The page that a scan has pinned is released, if there is one.
fn unpin<H: ResetHook, K: ExtKind, E: Emit>(
    store: &mut Store<H>,
    owner: OwnerId,
    page: Option<u32>,
    space: &mut Space,
    shelf: &mut Shelf<H>,
    commons: &mut Commons<K>,
    out: &mut E,
)
    requires keeps { Keeps store.old space.old }
    requires plans { PlansMayGo store.old space.old shelf.old }
    requires live { owners.IsLive store.old.owners owner }
    requires unbegun { has_begun owner.number (owners_of store.old.owners) ≡ false }
    requires serves { Serves store.old.owners commons.old }
    ensures acted { Acted (λ scene. where_there page (item_released owner.number buffer_pin) scene) store.old store.new space.old space.new shelf.old shelf.new commons.old commons.new (λ events. E.emits out.old events out.new) }
    ensures out { GoesOut store.old store.new space.old space.new }
    ensures portals { store.new.portals ≡ store.old.portals }
    ensures descriptors { store.new.owners.descriptors ≡ store.old.owners.descriptors }
    ensures live { owners.IsLive store.new.owners owner }
    ensures unbegun { has_begun owner.number (owners_of store.new.owners) ≡ false }
    ensures plans { PlansMayGo store.new space.new shelf.new }
    ensures serves { Serves store.new.owners commons.new }
{
    match page {
        None => {}
        Some(page) => forget_item(
            store,
            owner,
            KindId::BUFFER_PIN,
            page,
            space,
            shelf,
            commons,
            out,
        ),
    }
}

/// An executor ends, whose scan and whose owner these are: the owner gives back what the scan uses. Without an owner there is nothing to do.
fn end_executor<H: ResetHook, K: ExtKind, E: Emit>(
    store: &mut Store<H>,
    owner: Option<OwnerId>,
    scan: Scan,
    space: &mut Space,
    shelf: &mut Shelf<H>,
    commons: &mut Commons<K>,
    out: &mut E,
)
    requires keeps { Keeps store.old space.old }
    requires plans { PlansMayGo store.old space.old shelf.old }
    requires live { IfSome owner (owners.IsLive store.old.owners) }
    requires unbegun { IfSome owner (λ o. has_begun o.number (owners_of store.old.owners) ≡ false) }
    requires serves { Serves store.old.owners commons.old }
    ensures acted { Acted (executor_at (number_in owner) scan) store.old store.new space.old space.new shelf.old shelf.new commons.old commons.new (λ events. E.emits out.old events out.new) }
    ensures out { GoesOut store.old store.new space.old space.new }
    ensures portals { store.new.portals ≡ store.old.portals }
    ensures descriptors { store.new.owners.descriptors ≡ store.old.owners.descriptors }
    ensures plans { PlansMayGo store.new space.new shelf.new }
    ensures serves { Serves store.new.owners commons.new }
{
    let owner = match owner {
        None => return,
        Some(owner) => owner,
    };
    unpin(store, owner, scan.page, space, shelf, commons, out);
    forget_item(
        store,
        owner,
        KindId::RELCACHE_REFERENCE,
        scan.object,
        space,
        shelf,
        commons,
        out,
    );
    forget_item(
        store,
        owner,
        KindId::SNAPSHOT_REFERENCE,
        scan.object,
        space,
        shelf,
        commons,
        out,
    );
}

/// A portal ends with its transaction, and leaves its owner to the level.
fn close_portal<H: ResetHook, K: ExtKind, E: Emit>(
    store: &mut Store<H>,
    portal: Portal,
    space: &mut Space,
    shelf: &mut Shelf<H>,
    commons: &mut Commons<K>,
    out: &mut E,
)
    requires keeps { Keeps store.old space.old }
    requires serves { Serves store.old.owners commons.old }
    requires lies { PortalLies store.old.tree store.old.owners portal }
    requires one { length store.old.levels ≡ 1 }
    requires ending { (back : List OpenPortal) × IsEnding none_left store.old space.old shelf.old commons.old (portal_state portal ∷ back) }
    ensures acted { Acted (portal_closed (portal_state portal)) store.old store.new space.old space.new shelf.old shelf.new commons.old commons.new (λ events. E.emits out.old events out.new) }
    ensures out { GoesOut store.old store.new space.old space.new }
    ensures serves { Serves store.new.owners commons.new }
{
    let owner = running(&portal);
    end_executor(store, owner, portal.scan, space, shelf, commons, out);
    drop_memory(store, portal.context, space, shelf, out);
    take_out(store, &portal.name);
}

/// All portals end with their transaction: `PreCommit_Portals`.
pub(crate) fn close_portals<H: ResetHook, K: ExtKind, E: Emit>(
    store: &mut Store<H>,
    space: &mut Space,
    shelf: &mut Shelf<H>,
    commons: &mut Commons<K>,
    out: &mut E,
)
    requires keeps { Keeps store.old space.old }
    requires serves { Serves store.old.owners commons.old }
    requires one { length store.old.levels ≡ 1 }
    requires ending { IsEnding none_left store.old space.old shelf.old commons.old (portals_of store.old.portals) }
    ensures acted { Acted (λ scene. for_each portal_closed (portals_of store.old.portals) scene) store.old store.new space.old space.new shelf.old shelf.new commons.old commons.new (λ events. E.emits out.old events out.new) }
    ensures out { GoesOut store.old store.new space.old space.new }
    ensures serves { Serves store.new.owners commons.new }
    ensures ending { IsEnding none_left store.new space.new shelf.new commons.new [] }
{
    let mut left = store.portals.len();
    while let Some(portal) = portal_at(store, left) {
        close_portal(store, portal, space, shelf, commons, out);
        left -= 1;
    }
}

/// A portal, the first of this many last ones, where the level of this number is merged into the one above it, which has this owner.
fn pass_portal<H: ResetHook, E: Emit>(
    store: &mut Store<H>,
    portal: Portal,
    left: usize,
    level: u32,
    above: Option<OwnerId>,
    out: &mut E,
)
    requires lies { PortalLies store.old.tree store.old.owners portal }
    requires level { length store.old.levels ≡ level }
    requires so { EndsSo (LevelEnd.Merges above) (levels_of store.old.levels) }
    requires to { IfSome above (owners.IsLive store.old.owners) }
    requires at { slice_get store.old.portals (length store.old.portals - left) ≡ Some portal }
    requires ending { (s : Space) × ((x : ShelfState) × ((c : CommonState) × ((back : List OpenPortal) × ((length back + 1 ≡ left) × IsEnding (left_by (LevelEnd.Merges above)) store.old s x c (portal_state portal ∷ back))))) }
    ensures acted { (s : Space) (x : ShelfState) (c : CommonState) → Acted (portal_after (LevelEnd.Merges above) level (portal_state portal)) store.old store.new s s x x c c (λ events. E.emits out.old events out.new) }
    ensures out { (s : Space) → Keeps store.old s → GoesOut store.old store.new s s }
    ensures stays { (id : AnOwner) → owners.IsLive store.old.owners id → owners.IsLive store.new.owners id }
{
    move_to(store, owner_of(&portal, level), above, out);
    pass(store, left, level);
}

/// A portal, the first of this many last ones, where the level of this number aborts, which has this owner.
fn abort_portal<H: ResetHook, E: Emit>(
    store: &mut Store<H>,
    portal: Portal,
    left: usize,
    level: u32,
    own: Option<OwnerId>,
    space: &mut Space,
    shelf: &mut Shelf<H>,
    out: &mut E,
)
    requires keeps { Keeps store.old space.old }
    requires lies { PortalLies store.old.tree store.old.owners portal }
    requires level { length store.old.levels ≡ level }
    requires so { EndsSo (LevelEnd.Aborts own) (levels_of store.old.levels) }
    requires to { IfSome own (owners.IsLive store.old.owners) }
    requires at { slice_get store.old.portals (length store.old.portals - left) ≡ Some portal }
    requires ending { (c : CommonState) × ((back : List OpenPortal) × ((length back + 1 ≡ left) × IsEnding (left_by (LevelEnd.Aborts own)) store.old space.old shelf.old c (portal_state portal ∷ back))) }
    ensures acted { (c : CommonState) → Acted (portal_after (LevelEnd.Aborts own) level (portal_state portal)) store.old store.new space.old space.new shelf.old shelf.new c c (λ events. E.emits out.old events out.new) }
    ensures out { GoesOut store.old store.new space.old space.new }
    ensures stays { (id : AnOwner) → owners.IsLive store.old.owners id → owners.IsLive store.new.owners id }
{
    let moved = sub_abort(store, left, level);
    let context = context_of(&portal, level);
    clear_memory(store, context, space, shelf, out);
    move_to(store, moved, own, out);
}

/// A portal where the level of this number is cleaned up: one of the level goes, with its memory.
fn sweep_portal<H: ResetHook, E: Emit>(
    store: &mut Store<H>,
    portal: Portal,
    level: u32,
    space: &mut Space,
    shelf: &mut Shelf<H>,
    out: &mut E,
)
    requires keeps { Keeps store.old space.old }
    requires lies { PortalLies store.old.tree store.old.owners portal }
    requires ending { (c : CommonState) × ((back : List OpenPortal) × IsEnding (left_by LevelEnd.Goes) store.old space.old shelf.old c (portal_state portal ∷ back)) }
    ensures acted { (c : CommonState) → Acted (portal_after LevelEnd.Goes level (portal_state portal)) store.old store.new space.old space.new shelf.old shelf.new c c (λ events. E.emits out.old events out.new) }
    ensures out { GoesOut store.old store.new space.old space.new }
    ensures stays { (id : AnOwner) → owners.IsLive store.old.owners id → owners.IsLive store.new.owners id }
{
    if portal.created != level {
        return;
    }
    drop_memory(store, portal.context, space, shelf, out);
    take_out(store, &portal.name);
}

/// What becomes of a portal, the first of this many last ones, where the level of this number ends so.
#[inline(never)]
fn settle_portal<H: ResetHook, E: Emit>(
    store: &mut Store<H>,
    portal: Portal,
    left: usize,
    end: LevelEnd,
    level: u32,
    space: &mut Space,
    shelf: &mut Shelf<H>,
    out: &mut E,
)
    requires keeps { Keeps store.old space.old }
    requires lies { PortalLies store.old.tree store.old.owners portal }
    requires level { length store.old.levels ≡ level }
    requires so { EndsSo end (levels_of store.old.levels) }
    requires to { IfSome (owner_to end) (owners.IsLive store.old.owners) }
    requires at { slice_get store.old.portals (length store.old.portals - left) ≡ Some portal }
    requires ending { (c : CommonState) × ((back : List OpenPortal) × ((length back + 1 ≡ left) × IsEnding (left_by end) store.old space.old shelf.old c (portal_state portal ∷ back))) }
    ensures acted { (c : CommonState) → Acted (portal_after end level (portal_state portal)) store.old store.new space.old space.new shelf.old shelf.new c c (λ events. E.emits out.old events out.new) }
    ensures out { GoesOut store.old store.new space.old space.new }
    ensures stays { (id : AnOwner) → owners.IsLive store.old.owners id → owners.IsLive store.new.owners id }
{
    match end {
        LevelEnd::Merges(above) => pass_portal(store, portal, left, level, above, out),
        LevelEnd::Aborts(own) => abort_portal(store, portal, left, level, own, space, shelf, out),
        LevelEnd::Goes => sweep_portal(store, portal, level, space, shelf, out),
    }
}

/// What becomes of the portals where the level of this number ends so: `AtSubCommit_Portals`, `AtSubAbort_Portals` and `AtAbort_Portals`, and
/// `AtSubCleanup_Portals` and `AtCleanup_Portals`. It looks at no portal behind the last one that the end is about.
pub(crate) fn settle_portals<H: ResetHook, E: Emit>(
    store: &mut Store<H>,
    end: LevelEnd,
    level: u32,
    space: &mut Space,
    shelf: &mut Shelf<H>,
    out: &mut E,
)
    requires keeps { Keeps store.old space.old }
    requires level { length store.old.levels ≡ level }
    requires so { EndsSo end (levels_of store.old.levels) }
    requires to { IfSome (owner_to end) (owners.IsLive store.old.owners) }
    requires ending { (c : CommonState) × IsEnding (left_by end) store.old space.old shelf.old c (portals_of store.old.portals) }
    ensures acted { (c : CommonState) → Acted (λ scene. for_each (portal_after end level) (portals_of store.old.portals) scene) store.old store.new space.old space.new shelf.old shelf.new c c (λ events. E.emits out.old events out.new) }
    ensures out { GoesOut store.old store.new space.old space.new }
    ensures ending { (c : CommonState) → IsEnding (left_by end) store.old space.old shelf.old c (portals_of store.old.portals) → IsEnding (left_by end) store.new space.new shelf.new c [] }
{
    let rest = untouched(store, level);
    let mut left = store.portals.len();
    while let Some(portal) = touched_at(store, left, rest) {
        settle_portal(store, portal, left, end, level, space, shelf, out);
        left -= 1;
    }
    settled(store, left);
}

/// The owner of a portal is released into its parent and discarded, if there is one.
fn end_owner<H: ResetHook, K: ExtKind, E: Emit>(
    store: &mut Store<H>,
    owner: Option<OwnerId>,
    space: &mut Space,
    shelf: &mut Shelf<H>,
    commons: &mut Commons<K>,
    out: &mut E,
)
    requires keeps { Keeps store.old space.old }
    requires plans { PlansMayGo store.old space.old shelf.old }
    requires live { IfSome owner (owners.IsLive store.old.owners) }
    requires below { IfSome owner (λ o. (p : ℕ) × (parent_of o.number (owners_of store.old.owners) ≡ Some p)) }
    requires serves { Serves store.old.owners commons.old }
    ensures acted { Acted (owner_ended (number_in owner)) store.old store.new space.old space.new shelf.old shelf.new commons.old commons.new (λ events. E.emits out.old events out.new) }
    ensures out { GoesOut store.old store.new space.old space.new }
    ensures portals { store.new.portals ≡ store.old.portals }
    ensures serves { Serves store.new.owners commons.new }
{
    let mut place = Place {
        tree: &mut store.tree,
        space,
        shelf,
    };
    release_owner(
        &mut store.owners,
        owner,
        true,
        false,
        &mut place,
        commons,
        out,
    );
    discard_owner(&mut store.owners, owner, out);
}

/// A portal ends within its transaction.
fn end_found<H: ResetHook, K: ExtKind, E: Emit>(
    store: &mut Store<H>,
    portal: Portal,
    space: &mut Space,
    shelf: &mut Shelf<H>,
    commons: &mut Commons<K>,
    out: &mut E,
)
    requires keeps { Keeps store.old space.old }
    requires stands { StandsIn store.old space.old shelf.old commons.old }
    requires serves { Serves store.old.owners commons.old }
    requires working { IsWorking (levels_of store.old.levels) }
    requires lies { PortalLies store.old.tree store.old.owners portal }
    requires there { portal_named portal.name store.old.portals ≡ Some portal }
    ensures acted { Acted (portal_ended (portal_state portal)) store.old store.new space.old space.new shelf.old shelf.new commons.old commons.new (λ events. E.emits out.old events out.new) }
    ensures out { GoesOut store.old store.new space.old space.new }
    ensures descriptors { store.new.owners.descriptors ≡ store.old.owners.descriptors }
    ensures serves { Serves store.new.owners commons.new }
{
    let owner = running(&portal);
    end_executor(store, owner, portal.scan, space, shelf, commons, out);
    end_owner(store, owner, space, shelf, commons, out);
    drop_memory(store, portal.context, space, shelf, out);
    take_out(store, &portal.name);
}

/// Ends a portal within its transaction, where there is one of that name: what its query uses is released, its owner and its memory go, and so
/// does the portal: `PortalDrop`. It takes no memory.
pub fn end_portal<H: ResetHook, K: ExtKind, E: Emit>(
    store: &mut Store<H>,
    name: &Name,
    space: &mut Space,
    shelf: &mut Shelf<H>,
    commons: &mut Commons<K>,
    out: &mut E,
)
    requires keeps { Keeps store.old space.old }
    requires stands { StandsIn store.old space.old shelf.old commons.old }
    requires serves { Serves store.old.owners commons.old }
    requires working { IsWorking (levels_of store.old.levels) }
    requires rest { All IsAtRest (portals_of store.old.portals) }
    ensures acted { Acted (at_portal name.now portal_ended) store.old store.new space.old space.new shelf.old shelf.new commons.old commons.new (λ events. E.emits out.old events out.new) }
    ensures keeps { Keeps store.new space.new }
    ensures moves { Moves store.old.tree store.new.tree space.old space.new }
    ensures asked { Asks store.old.tree.account 0 space.old space.new }
    ensures levels { store.new.levels ≡ store.old.levels }
    ensures next_context { store.new.tree.next ≡ store.old.tree.next }
    ensures next_owner { store.new.owners.next_owner ≡ store.old.owners.next_owner }
    ensures next_serial { store.new.owners.next_serial ≡ store.old.owners.next_serial }
    ensures descriptors { store.new.owners.descriptors ≡ store.old.owners.descriptors }
{
    if let Some(portal) = found(store, name) {
        end_found(store, portal, space, shelf, commons, out);
    }
}
