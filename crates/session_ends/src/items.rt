//! Items of owners are given back, and plans are discarded.
ghost use Rattle.std.specs.Prelude.{◌≡◌, ◌≢◌, ℕ, true, false, find, Err, OnOk, OnErr};
ghost use Rattle.std.specs.Option.{ok_or};
ghost use Rattle.addr_space.specs.Space.{Asks};
ghost use Rattle.owner_items.specs.ItemList.{is_of};
ghost use Rattle.plan_store.specs.Plans.{is_usable};
ghost use Rattle.owner_core.specs.Owners.{forgotten};
ghost use Rattle.session_owners.specs.ResourceState.{IsLive, has_begun, items_of, owners_of, spare_of};
ghost use Rattle.session_owners.specs.Placing.{plan_dropped};
ghost use Rattle.session_owners.specs.Commons.{CommonState, Serves};
ghost use Rattle.session_rules.specs.Releases.{item_released};
ghost use Rattle.session_store.specs.Calls.{Acted, BothAlone, Keeps, Refused, StandsIn};
ghost use Rattle.session_ends.specs.Portals.{GoesOut, PlansMayGo};

use crate::place::Place;
use addr_space::Space;
use owner_core::OwnerError;
use owner_kinds::ExtKind;
use pgs_step::{Emit, Item, KindId, OwnerId};
use reset_callbacks::{ResetHook, Shelf};
use session_owners::Commons;
use session_store::Store;

/// An owner forgets its newest item of this kind and key, and that is given back: `ResourceOwnerForget`. Where it was the last
/// reference to a discarded plan, that is gone, and so is its context.
///
/// `Releasing` comes where the owner's release has begun, else `NotOwned` where it has no such item. It takes no memory.
pub fn release_item<H: ResetHook, K: ExtKind, E: Emit>(
    store: &mut Store<H>,
    owner: OwnerId,
    kind: KindId,
    key: u32,
    space: &mut Space,
    shelf: &mut Shelf<H>,
    commons: &mut Commons<K>,
    out: &mut E,
) -> Result<Item, OwnerError>
    requires keeps { Keeps store.old space.old }
    requires stands { StandsIn store.old space.old shelf.old commons.old }
    requires live { IsLive store.old.owners owner }
    requires serves { Serves store.old.owners commons.old }
    ensures item { has_begun owner.number (owners_of store.old.owners) ≡ false → result ≡ ok_or (find (is_of kind key) (items_of owner.number (owners_of store.old.owners))) OwnerError.NotOwned }
    ensures releasing { has_begun owner.number (owners_of store.old.owners) ≡ true → result ≡ Err OwnerError.Releasing }
    ensures others { (other : ℕ) → other ≢ owner.number → spare_of other store.new.owners ≡ spare_of other store.old.owners }
    ensures next_owner { store.new.owners.next_owner ≡ store.old.owners.next_owner }
    ensures next_serial { store.new.owners.next_serial ≡ store.old.owners.next_serial }
    ensures descriptors { store.new.owners.descriptors ≡ store.old.owners.descriptors }
    ensures acted { OnOk result (Acted (item_released owner.number kind key) store.old store.new space.old space.new shelf.old shelf.new commons.old commons.new (λ events. E.emits out.old events out.new)) }
    ensures alone { BothAlone store.old store.new space.old space.new commons.old commons.new }
    ensures asked { Asks store.old.tree.account 0 space.old space.new }
    ensures refused { OnErr result (Refused store.old store.new space.old space.new shelf.old shelf.new commons.old commons.new) }
    ensures silent { OnErr result (out.new ≡ out.old) }
{
    give_back(store, owner, kind, key, space, shelf, commons, out)
}

/// An owner forgets its newest item of this kind and key, and that is given back, where contexts of plans may go.
pub(crate) fn give_back<H: ResetHook, K: ExtKind, E: Emit>(
    store: &mut Store<H>,
    owner: OwnerId,
    kind: KindId,
    key: u32,
    space: &mut Space,
    shelf: &mut Shelf<H>,
    commons: &mut Commons<K>,
    out: &mut E,
) -> Result<Item, OwnerError>
    requires keeps { Keeps store.old space.old }
    requires plans { PlansMayGo store.old space.old shelf.old }
    requires live { IsLive store.old.owners owner }
    requires serves { Serves store.old.owners commons.old }
    ensures item { has_begun owner.number (owners_of store.old.owners) ≡ false → result ≡ ok_or (find (is_of kind key) (items_of owner.number (owners_of store.old.owners))) OwnerError.NotOwned }
    ensures releasing { has_begun owner.number (owners_of store.old.owners) ≡ true → result ≡ Err OwnerError.Releasing }
    ensures others { (other : ℕ) → other ≢ owner.number → spare_of other store.new.owners ≡ spare_of other store.old.owners }
    ensures owners { OnOk result (owners_of store.new.owners ≡ forgotten owner.number kind key (owners_of store.old.owners)) }
    ensures places { store.new.owners.places ≡ store.old.owners.places }
    ensures next_owner { store.new.owners.next_owner ≡ store.old.owners.next_owner }
    ensures next_serial { store.new.owners.next_serial ≡ store.old.owners.next_serial }
    ensures descriptors { store.new.owners.descriptors ≡ store.old.owners.descriptors }
    ensures acted { OnOk result (Acted (item_released owner.number kind key) store.old store.new space.old space.new shelf.old shelf.new commons.old commons.new (λ events. E.emits out.old events out.new)) }
    ensures alone { BothAlone store.old store.new space.old space.new commons.old commons.new }
    ensures out { GoesOut store.old store.new space.old space.new }
    ensures asked { Asks store.old.tree.account 0 space.old space.new }
    ensures plans { PlansMayGo store.new space.new shelf.new }
    ensures serves { Serves store.new.owners commons.new }
    ensures refused { OnErr result (Refused store.old store.new space.old space.new shelf.old shelf.new commons.old commons.new) }
    ensures silent { OnErr result (out.new ≡ out.old) }
{
    let mut place = Place {
        tree: &mut store.tree,
        space,
        shelf,
    };
    store
        .owners
        .give_back(owner, kind, key, &mut place, commons, out)
}

/// An owner's newest item of this kind and key is given back, where it has one.
pub(crate) fn forget_item<H: ResetHook, K: ExtKind, E: Emit>(
    store: &mut Store<H>,
    owner: OwnerId,
    kind: KindId,
    key: u32,
    space: &mut Space,
    shelf: &mut Shelf<H>,
    commons: &mut Commons<K>,
    out: &mut E,
)
    requires keeps { Keeps store.old space.old }
    requires plans { PlansMayGo store.old space.old shelf.old }
    requires live { IsLive store.old.owners owner }
    requires unbegun { has_begun owner.number (owners_of store.old.owners) ≡ false }
    requires serves { Serves store.old.owners commons.old }
    ensures acted { Acted (item_released owner.number kind key) store.old store.new space.old space.new shelf.old shelf.new commons.old commons.new (λ events. E.emits out.old events out.new) }
    ensures out { GoesOut store.old store.new space.old space.new }
    ensures portals { store.new.portals ≡ store.old.portals }
    ensures descriptors { store.new.owners.descriptors ≡ store.old.owners.descriptors }
    ensures live { IsLive store.new.owners owner }
    ensures unbegun { has_begun owner.number (owners_of store.new.owners) ≡ false }
    ensures plans { PlansMayGo store.new space.new shelf.new }
    ensures serves { Serves store.new.owners commons.new }
{
    let _ = give_back(store, owner, kind, key, space, shelf, commons, out);
}

/// Discards a plan: it takes no new reference. Where no reference to it is held it is gone, and so is its context:
/// `DropCachedPlan`. It takes no memory.
pub fn drop_plan<H: ResetHook, E: Emit>(
    store: &mut Store<H>,
    plan: u32,
    space: &mut Space,
    shelf: &mut Shelf<H>,
    out: &mut E,
)
    requires keeps { Keeps store.old space.old }
    requires stands { (c : CommonState) × StandsIn store.old space.old shelf.old c }
    requires usable { is_usable store.old.owners.plans plan ≡ true }
    ensures acted { (c : CommonState) → Acted (plan_dropped plan) store.old store.new space.old space.new shelf.old shelf.new c c (λ events. E.emits out.old events out.new) }
    ensures alone { (c : CommonState) → BothAlone store.old store.new space.old space.new c c }
    ensures asked { Asks store.old.tree.account 0 space.old space.new }
{
    let mut place = Place {
        tree: &mut store.tree,
        space,
        shelf,
    };
    store.owners.drop_plan(plan, &mut place, out);
}
