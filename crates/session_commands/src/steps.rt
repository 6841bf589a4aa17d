//! The steps by which an owner takes an item, and by which that of the deepest level gives one back.
ghost use Rattle.std.specs.Prelude.{◌≡◌, ◌<◌, ◌≤◌, ◌^◌, [], ◌∷◌, true, false, OnOk};
ghost use Rattle.addr_space.specs.Space.{Space};
ghost use Rattle.forest.specs.Forest.{has};
ghost use Rattle.reset_callbacks.specs.ShelfState.{ShelfState};
ghost use Rattle.session_owners.specs.ResourceState.{IsLive, has_begun, owners_of, spare_of};
ghost use Rattle.session_rules.specs.Limits.{shared_buffers};
ghost use Rattle.session_rules.specs.Elements as e;
ghost use Rattle.session_rules.specs.Elements.{OfLevel, OwnerRole};
ghost use Rattle.session_rules.specs.Standing.{IsWorking};
ghost use Rattle.session_rules.specs.State as rules;
ghost use Rattle.session_rules.specs.State.{buffer_pin, file_kind};
ghost use Rattle.session_rules.specs.Works.{takes, item_row, elements};
ghost use Rattle.session_owners.specs.Counted.{IsReference, holds_file};
ghost use Rattle.session_owners.specs.Commons.{CommonState, Serves};
ghost use Rattle.session_store.specs.State.{levels_of, session_of};
ghost use Rattle.session_store.specs.Calls.{Keeps, StandsIn};
ghost use Rattle.session_store.specs.Owned.{OwnersAlone};
ghost use Rattle.session_commands.specs.Answers.{refusal_of};
ghost use Rattle.session_commands.specs.Deepest.{IsLevelOwner, IsOwnerOf};
ghost use Rattle.session_commands.specs.Performed.{now, HasRoom, IsBetweenSteps, Performed, most_calls};

use crate::shared::Shared;
use owner_kinds::ExtKind;
use pgs_step::{Emit, Error, KindId, OwnerId};
use reset_callbacks::ResetHook;
use session_ends::release_item;
use session_store::Store;

/// The owner of the deepest level, which is active.
pub(crate) fn owner_of_level<H: ResetHook>(store: &Store<H>) -> OwnerId
    requires active { IsWorking (levels_of store.now.levels) }
    ensures owner { IsLevelOwner store.now result }
    ensures live { (s : Space) (x : ShelfState) (c : CommonState) → StandsIn store.now s x c → IsLive store.now.owners result }
{
    match store.level_owner() {
        Some(owner) => owner,
        None => unreachable!(),
    }
}

/// Makes room for one more item of an owner, whose release has not begun.
#[inline]
pub(crate) fn enlarge<H: ResetHook, K: ExtKind>(
    store: &mut Store<H>,
    owner: OwnerId,
    shared: &mut Shared<'_, H, K>,
) -> Result<(), Error>
    requires between { IsBetweenSteps (now store.old shared.old) }
    requires room { HasRoom 1 (now store.old shared.old) }
    requires live { IsLive store.old.owners owner }
    requires not_begun { has_begun owner.number (owners_of store.old.owners) ≡ false }
    ensures performed { (role : OwnerRole) → Performed 1 (e.Enlarge role ∷ []) (now store.old shared.old) (now store.new shared.new) (λ events. events ≡ []) (refusal_of result) }
    ensures spare { OnOk result (1 ≤ spare_of owner.number store.new.owners) }
    ensures session { OnOk result ((s : Space) → session_of store.new s ≡ session_of store.old s) }
    ensures commons { shared.new.commons.now ≡ shared.old.commons.now }
    ensures plans { store.new.owners.plans ≡ store.old.owners.plans }
    ensures alone { OnOk result (OwnersAlone store.old store.new shared.old.commons.now shared.new.commons.now) }
{
    shared.calls.next()?;
    if let Err(_) = store.enlarge(owner) {
        return Err(Error::NoMemory(shared.calls.count));
    }
    Ok(())
}

/// An owner, whose release has not begun, gets room for one more item, and pins a buffer.
pub fn hold_pin<H: ResetHook, K: ExtKind, E: Emit>(
    store: &mut Store<H>,
    owner: OwnerId,
    buffer: u32,
    shared: &mut Shared<'_, H, K>,
    out: &mut E,
) -> Result<(), Error>
    requires between { IsBetweenSteps (now store.old shared.old) }
    requires room { HasRoom 2 (now store.old shared.old) }
    requires live { IsLive store.old.owners owner }
    requires there { has owner.number (owners_of store.old.owners) ≡ true }
    requires not_begun { has_begun owner.number (owners_of store.old.owners) ≡ false }
    requires buffer { buffer < shared_buffers }
    ensures performed { (role : OwnerRole) → IsOwnerOf role store.old owner → Performed 2 (takes role buffer_pin buffer) (now store.old shared.old) (now store.new shared.new) (λ events. E.emits out.old events out.new) (refusal_of result) }
{
    enlarge(store, owner, shared)?;
    take_pin(store, owner, buffer, shared, out)
}

/// Pins a buffer in room that was made before.
fn take_pin<H: ResetHook, K: ExtKind, E: Emit>(
    store: &mut Store<H>,
    owner: OwnerId,
    buffer: u32,
    shared: &mut Shared<'_, H, K>,
    out: &mut E,
) -> Result<(), Error>
    requires keeps { Keeps store.old shared.old.space.now }
    requires serves { Serves store.old.owners shared.old.commons.now }
    requires room { HasRoom 1 (now store.old shared.old) }
    requires live { IsLive store.old.owners owner }
    requires spare { 1 ≤ spare_of owner.number store.old.owners }
    requires not_begun { has_begun owner.number (owners_of store.old.owners) ≡ false }
    requires buffer { buffer < shared_buffers }
    ensures performed { (role : OwnerRole) → IsOwnerOf role store.old owner → Performed 1 (e.Take role buffer_pin buffer ∷ []) (now store.old shared.old) (now store.new shared.new) (λ events. E.emits out.old events out.new) (refusal_of result) }
{
    shared.calls.next()?;
    store.pin(owner, buffer, shared.commons, out);
    Ok(())
}

/// An owner, whose release has not begun, gets room for one more item, and takes a reference that nothing but owners keeps count of.
pub fn hold_reference<H: ResetHook, K: ExtKind, E: Emit>(
    store: &mut Store<H>,
    owner: OwnerId,
    kind: KindId,
    key: u32,
    shared: &mut Shared<'_, H, K>,
    out: &mut E,
) -> Result<(), Error>
    requires between { IsBetweenSteps (now store.old shared.old) }
    requires room { HasRoom 2 (now store.old shared.old) }
    requires live { IsLive store.old.owners owner }
    requires there { has owner.number (owners_of store.old.owners) ≡ true }
    requires not_begun { has_begun owner.number (owners_of store.old.owners) ≡ false }
    requires kind { IsReference kind }
    ensures performed { (role : OwnerRole) → IsOwnerOf role store.old owner → Performed 2 (takes role kind key) (now store.old shared.old) (now store.new shared.new) (λ events. E.emits out.old events out.new) (refusal_of result) }
{
    enlarge(store, owner, shared)?;
    take_reference(store, owner, kind, key, shared, out)
}

/// Takes a reference in room that was made before.
fn take_reference<H: ResetHook, K: ExtKind, E: Emit>(
    store: &mut Store<H>,
    owner: OwnerId,
    kind: KindId,
    key: u32,
    shared: &mut Shared<'_, H, K>,
    out: &mut E,
) -> Result<(), Error>
    requires keeps { Keeps store.old shared.old.space.now }
    requires room { HasRoom 1 (now store.old shared.old) }
    requires live { IsLive store.old.owners owner }
    requires spare { 1 ≤ spare_of owner.number store.old.owners }
    requires not_begun { has_begun owner.number (owners_of store.old.owners) ≡ false }
    requires kind { IsReference kind }
    ensures performed { (role : OwnerRole) → IsOwnerOf role store.old owner → Performed 1 (e.Take role kind key ∷ []) (now store.old shared.old) (now store.new shared.new) (λ events. E.emits out.old events out.new) (refusal_of result) }
{
    shared.calls.next()?;
    if let Err(_) = store.add_reference(owner, kind, key, out) {
        return Err(Error::NoMemory(shared.calls.count));
    }
    Ok(())
}

/// Gives back the newest item of a kind and key that the owner of the deepest level has.
///
/// `NotHeld` comes where it has none.
pub(crate) fn give_back<H: ResetHook, K: ExtKind, E: Emit>(
    store: &mut Store<H>,
    kind: KindId,
    key: u32,
    shared: &mut Shared<'_, H, K>,
    out: &mut E,
) -> Result<(), Error>
    requires between { IsBetweenSteps (now store.old shared.old) }
    requires active { IsWorking (levels_of store.old.levels) }
    ensures performed { Performed most_calls (e.Checks (e.Holds kind key) ∷ e.GiveBack kind key ∷ []) (now store.old shared.old) (now store.new shared.new) (λ events. E.emits out.old events out.new) (refusal_of result) }
{
    let owner = owner_of_level(store);
    if let Err(_) = release_item(
        store,
        owner,
        kind,
        key,
        shared.space,
        shared.shelf,
        shared.commons,
        out,
    ) {
        return Err(Error::NotHeld);
    }
    Ok(())
}
