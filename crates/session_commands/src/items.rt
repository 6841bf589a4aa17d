//! The commands by which the owner of the deepest level takes an item or gives one back, and the use of a file.
ghost use Rattle.std.specs.Prelude.{◌≡◌, ◌<◌, ◌≤◌, ◌^◌, [], ◌∷◌, true, false, OnOk};
ghost use Rattle.addr_space.specs.Space.{Space};
ghost use Rattle.forest.specs.Forest.{has};
ghost use Rattle.reset_callbacks.specs.ShelfState.{ShelfState};
ghost use Rattle.session_owners.specs.ResourceState.{IsLive, has_begun, owners_of, spare_of};
ghost use Rattle.session_rules.specs.Elements as e;
ghost use Rattle.session_rules.specs.Elements.{OfLevel, OwnerRole};
ghost use Rattle.session_rules.specs.Standing.{IsWorking};
ghost use Rattle.session_rules.specs.State as rules;
ghost use Rattle.session_rules.specs.State.{buffer_pin, file_kind};
ghost use Rattle.session_rules.specs.Works.{takes, item_row, elements};
ghost use Rattle.session_owners.specs.Counted.{IsReference, holds_file};
ghost use Rattle.session_owners.specs.Commons.{CommonState, Serves};
ghost use Rattle.session_store.specs.State.{levels_of, session_of};
ghost use Rattle.session_store.specs.Calls.{Keeps, StandsIn};
ghost use Rattle.session_store.specs.Owned.{OwnersAlone};
ghost use Rattle.session_commands.specs.Answers.{refusal_of};
ghost use Rattle.session_commands.specs.Deepest.{IsLevelOwner, IsOwnerOf};
ghost use Rattle.session_commands.specs.Performed.{now, HasRoom, IsBetweenSteps, Performed, most_calls};

use crate::errors::open_error;
use crate::extensions::{acquire, give_up};
use crate::shared::Shared;
use crate::steps::{enlarge, give_back, hold_pin, hold_reference, owner_of_level};
use owner_kinds::ExtKind;
use pgs_command::{ItemCommand, ReferenceClass};
use pgs_step::{Emit, Error, KindId, OwnerId};
use reset_callbacks::ResetHook;
use session_store::Store;

/// How many buffers there are.
pub(crate) const BUFFERS: u32 = 1024;

/// What a command on items does in a transaction that isn't aborted.
pub fn work_on_items<H: ResetHook, K: ExtKind, E: Emit>(
    store: &mut Store<H>,
    command: &ItemCommand,
    shared: &mut Shared<'_, H, K>,
    out: &mut E,
) -> Result<(), Error>
    requires between { IsBetweenSteps (now store.old shared.old) }
    requires active { IsWorking (levels_of store.old.levels) }
    requires room { HasRoom most_calls (now store.old shared.old) }
    ensures performed { Performed most_calls (elements (item_row command.now)) (now store.old shared.old) (now store.new shared.new) (λ events. E.emits out.old events out.new) (refusal_of result) }
{
    match command {
        ItemCommand::Pin(buffer) => pin(store, *buffer, shared, out),
        ItemCommand::Unpin(buffer) => unpin(store, *buffer, shared, out),
        ItemCommand::Open(file) => open_file(store, *file, shared, out),
        ItemCommand::Touch(file) => touch(store, *file, shared, out),
        ItemCommand::Close(file) => close_file(store, *file, shared, out),
        ItemCommand::Reference { class, key } => reference(store, *class, *key, shared, out),
        ItemCommand::Unreference { class, key } => unreference(store, *class, *key, shared, out),
        ItemCommand::Acquire { kind, key } => acquire(store, kind, *key, shared, out),
        ItemCommand::Drop { kind, key } => give_up(store, kind, *key, shared, out),
        ItemCommand::Snapshot(snapshot) => register_snapshot(store, *snapshot, shared, out),
        ItemCommand::Unsnapshot(snapshot) => unregister_snapshot(store, *snapshot, shared, out),
    }
}

/// `pin`: the owner of the deepest level pins a buffer.
///
/// `NoSuchBuffer` comes where the number is 1,024 or more.
fn pin<H: ResetHook, K: ExtKind, E: Emit>(
    store: &mut Store<H>,
    buffer: u32,
    shared: &mut Shared<'_, H, K>,
    out: &mut E,
) -> Result<(), Error>
    requires between { IsBetweenSteps (now store.old shared.old) }
    requires room { HasRoom most_calls (now store.old shared.old) }
    requires active { IsWorking (levels_of store.old.levels) }
    ensures performed { Performed most_calls (elements (item_row (ItemCommand.Pin buffer))) (now store.old shared.old) (now store.new shared.new) (λ events. E.emits out.old events out.new) (refusal_of result) }
{
    if buffer >= BUFFERS {
        return Err(Error::NoSuchBuffer);
    }
    let owner = owner_of_level(store);
    hold_pin(store, owner, buffer, shared, out)
}

/// `unpin`: the owner of the deepest level gives back its newest pin of a buffer.
///
/// `NotHeld` comes where it has none.
fn unpin<H: ResetHook, K: ExtKind, E: Emit>(
    store: &mut Store<H>,
    buffer: u32,
    shared: &mut Shared<'_, H, K>,
    out: &mut E,
) -> Result<(), Error>
    requires between { IsBetweenSteps (now store.old shared.old) }
    requires active { IsWorking (levels_of store.old.levels) }
    ensures performed { Performed most_calls (elements (item_row (ItemCommand.Unpin buffer))) (now store.old shared.old) (now store.new shared.new) (λ events. E.emits out.old events out.new) (refusal_of result) }
{
    give_back(store, KindId::BUFFER_PIN, buffer, shared, out)
}

/// `ref`: the owner of the deepest level takes a reference to a cache's entry.
fn reference<H: ResetHook, K: ExtKind, E: Emit>(
    store: &mut Store<H>,
    class: ReferenceClass,
    key: u32,
    shared: &mut Shared<'_, H, K>,
    out: &mut E,
) -> Result<(), Error>
    requires between { IsBetweenSteps (now store.old shared.old) }
    requires room { HasRoom most_calls (now store.old shared.old) }
    requires active { IsWorking (levels_of store.old.levels) }
    ensures performed { Performed most_calls (elements (item_row (ItemCommand.Reference class key))) (now store.old shared.old) (now store.new shared.new) (λ events. E.emits out.old events out.new) (refusal_of result) }
{
    refer(store, class.kind(), key, shared, out)
}

/// `unref`: the owner of the deepest level gives back its newest reference to a cache's entry.
///
/// `NotHeld` comes where it has none.
fn unreference<H: ResetHook, K: ExtKind, E: Emit>(
    store: &mut Store<H>,
    class: ReferenceClass,
    key: u32,
    shared: &mut Shared<'_, H, K>,
    out: &mut E,
) -> Result<(), Error>
    requires between { IsBetweenSteps (now store.old shared.old) }
    requires active { IsWorking (levels_of store.old.levels) }
    ensures performed { Performed most_calls (elements (item_row (ItemCommand.Unreference class key))) (now store.old shared.old) (now store.new shared.new) (λ events. E.emits out.old events out.new) (refusal_of result) }
{
    give_back(store, class.kind(), key, shared, out)
}

/// `snapshot`: the owner of the deepest level takes a reference to a snapshot: `RegisterSnapshot`.
fn register_snapshot<H: ResetHook, K: ExtKind, E: Emit>(
    store: &mut Store<H>,
    snapshot: u32,
    shared: &mut Shared<'_, H, K>,
    out: &mut E,
) -> Result<(), Error>
    requires between { IsBetweenSteps (now store.old shared.old) }
    requires room { HasRoom most_calls (now store.old shared.old) }
    requires active { IsWorking (levels_of store.old.levels) }
    ensures performed { Performed most_calls (elements (item_row (ItemCommand.Snapshot snapshot))) (now store.old shared.old) (now store.new shared.new) (λ events. E.emits out.old events out.new) (refusal_of result) }
{
    refer(store, KindId::SNAPSHOT_REFERENCE, snapshot, shared, out)
}

/// `unsnapshot`: the owner of the deepest level gives back its newest reference to a snapshot: `UnregisterSnapshot`.
///
/// `NotHeld` comes where it has none.
fn unregister_snapshot<H: ResetHook, K: ExtKind, E: Emit>(
    store: &mut Store<H>,
    snapshot: u32,
    shared: &mut Shared<'_, H, K>,
    out: &mut E,
) -> Result<(), Error>
    requires between { IsBetweenSteps (now store.old shared.old) }
    requires active { IsWorking (levels_of store.old.levels) }
    ensures performed { Performed most_calls (elements (item_row (ItemCommand.Unsnapshot snapshot))) (now store.old shared.old) (now store.new shared.new) (λ events. E.emits out.old events out.new) (refusal_of result) }
{
    give_back(store, KindId::SNAPSHOT_REFERENCE, snapshot, shared, out)
}

/// `open`: the owner of the deepest level takes a file, which gets a descriptor.
///
/// `NameTaken` comes where the session has the file open, and else `LimitReached` where it has 4,096 files open.
fn open_file<H: ResetHook, K: ExtKind, E: Emit>(
    store: &mut Store<H>,
    file: u32,
    shared: &mut Shared<'_, H, K>,
    out: &mut E,
) -> Result<(), Error>
    requires between { IsBetweenSteps (now store.old shared.old) }
    requires room { HasRoom most_calls (now store.old shared.old) }
    requires active { IsWorking (levels_of store.old.levels) }
    ensures performed { Performed most_calls (elements (item_row (ItemCommand.Open file))) (now store.old shared.old) (now store.new shared.new) (λ events. E.emits out.old events out.new) (refusal_of result) }
{
    if store.is_open(file) {
        return Err(Error::NameTaken);
    }
    let owner = owner_of_level(store);
    enlarge(store, owner, shared)?;
    take_file(store, owner, file, shared, out)
}

/// `touch`: a file that the session has open is used, and gets a descriptor where it has none.
///
/// `NoSuchName` comes where the file isn't open.
fn touch<H: ResetHook, K: ExtKind, E: Emit>(
    store: &mut Store<H>,
    file: u32,
    shared: &mut Shared<'_, H, K>,
    out: &mut E,
) -> Result<(), Error>
    requires between { IsBetweenSteps (now store.old shared.old) }
    requires room { HasRoom most_calls (now store.old shared.old) }
    ensures performed { Performed most_calls (elements (item_row (ItemCommand.Touch file))) (now store.old shared.old) (now store.new shared.new) (λ events. E.emits out.old events out.new) (refusal_of result) }
{
    if !store.is_open(file) {
        return Err(Error::NoSuchName);
    }
    shared.calls.next()?;
    if let Err(_) = store.touch(file, out) {
        return Err(Error::NoMemory(shared.calls.count));
    }
    Ok(())
}

/// `close`: the owner of the deepest level gives back a file, whose descriptor is closed.
///
/// `NotHeld` comes where that owner hasn't opened it.
fn close_file<H: ResetHook, K: ExtKind, E: Emit>(
    store: &mut Store<H>,
    file: u32,
    shared: &mut Shared<'_, H, K>,
    out: &mut E,
) -> Result<(), Error>
    requires between { IsBetweenSteps (now store.old shared.old) }
    requires active { IsWorking (levels_of store.old.levels) }
    ensures performed { Performed most_calls (elements (item_row (ItemCommand.Close file))) (now store.old shared.old) (now store.new shared.new) (λ events. E.emits out.old events out.new) (refusal_of result) }
{
    give_back(store, KindId::FILE, file, shared, out)
}

/// The owner of the deepest level takes a reference that nothing but owners keeps count of.
fn refer<H: ResetHook, K: ExtKind, E: Emit>(
    store: &mut Store<H>,
    kind: KindId,
    key: u32,
    shared: &mut Shared<'_, H, K>,
    out: &mut E,
) -> Result<(), Error>
    requires between { IsBetweenSteps (now store.old shared.old) }
    requires room { HasRoom 2 (now store.old shared.old) }
    requires active { IsWorking (levels_of store.old.levels) }
    requires kind { IsReference kind }
    ensures performed { Performed 2 (takes OfLevel kind key) (now store.old shared.old) (now store.new shared.new) (λ events. E.emits out.old events out.new) (refusal_of result) }
{
    let owner = owner_of_level(store);
    hold_reference(store, owner, kind, key, shared, out)
}

/// Takes a file in room that was made before. `LimitReached` comes where the session has 4,096 files open.
fn take_file<H: ResetHook, K: ExtKind, E: Emit>(
    store: &mut Store<H>,
    owner: OwnerId,
    file: u32,
    shared: &mut Shared<'_, H, K>,
    out: &mut E,
) -> Result<(), Error>
    requires keeps { Keeps store.old shared.old.space.now }
    requires room { HasRoom 1 (now store.old shared.old) }
    requires owner { IsLevelOwner store.old owner }
    requires live { IsLive store.old.owners owner }
    requires spare { 1 ≤ spare_of owner.number store.old.owners }
    requires not_begun { has_begun owner.number (owners_of store.old.owners) ≡ false }
    requires closed { holds_file file (owners_of store.old.owners) ≡ false }
    ensures performed { Performed 1 (e.Take OfLevel file_kind file ∷ []) (now store.old shared.old) (now store.new shared.new) (λ events. E.emits out.old events out.new) (refusal_of result) }
{
    shared.calls.next()?;
    if let Err(error) = store.open_file(owner, file, out) {
        return Err(open_error(error, shared.calls.count));
    }
    Ok(())
}
