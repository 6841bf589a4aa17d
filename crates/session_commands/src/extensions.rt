//! The commands by which the owner of the deepest level takes an item of an extension kind or gives one back.
ghost use Rattle.std.specs.Prelude.{◌≡◌, ◌<◌, ◌≤◌, ◌^◌, [], ◌∷◌, Some, false, OnOk};
ghost use Rattle.pgs_command.specs.declared.commands.ItemCommand.TheVariants as item;
ghost use Rattle.owner_kinds.specs.KindShelf.{table_of};
ghost use Rattle.owner_kinds.specs.KindTable.{IsExtension};
ghost use Rattle.session_owners.specs.Commons.{Serves};
ghost use Rattle.session_owners.specs.ResourceState.{IsLive, has_begun, owners_of, spare_of};
ghost use Rattle.session_rules.specs.Elements as e;
ghost use Rattle.session_rules.specs.Elements.{Text};
ghost use Rattle.session_rules.specs.Lookup.{kind_named};
ghost use Rattle.session_rules.specs.Standing.{IsWorking};
ghost use Rattle.session_rules.specs.Works.{item_row, elements};
ghost use Rattle.session_store.specs.State.{levels_of};
ghost use Rattle.session_store.specs.Calls.{Keeps};
ghost use Rattle.session_commands.specs.Answers.{refusal_of};
ghost use Rattle.session_commands.specs.Deepest.{IsLevelOwner};
ghost use Rattle.session_commands.specs.Performed.{now, HasRoom, IsBetweenSteps, Performed, most_calls};

use crate::errors::kind_error;
use crate::shared::Shared;
use crate::steps::{enlarge, give_back, owner_of_level};
use owner_kinds::ExtKind;
use pgs_step::{Emit, Error, KindId, Name, OwnerId};
use reset_callbacks::ResetHook;
use session_store::Store;

/// `acquire`: the owner of the deepest level takes a key of the extension kind of this name.
///
/// `NoSuchName` comes where no kind has the name, and `KindLimit` where the kind holds as many keys as it may.
pub(crate) fn acquire<H: ResetHook, K: ExtKind, E: Emit>(
    store: &mut Store<H>,
    name: &Name,
    key: u32,
    shared: &mut Shared<'_, H, K>,
    out: &mut E,
) -> Result<(), Error>
    requires between { IsBetweenSteps (now store.old shared.old) }
    requires room { HasRoom most_calls (now store.old shared.old) }
    requires active { IsWorking (levels_of store.old.levels) }
    ensures performed { Performed most_calls (elements (item_row (item.Acquire name.now key))) (now store.old shared.old) (now store.new shared.new) (λ events. E.emits out.old events out.new) (refusal_of result) }
{
    let Some(kind) = shared.commons.find(name) else {
        return Err(Error::NoSuchName);
    };
    let owner = owner_of_level(store);
    enlarge(store, owner, shared)?;
    take_extension(store, owner, kind, key, shared, out)
}

/// `drop`: the owner of the deepest level gives back its newest item of a key of the extension kind of this name.
///
/// `NoSuchName` comes where no kind has the name, and `NotHeld` where that owner has no such item.
pub(crate) fn give_up<H: ResetHook, K: ExtKind, E: Emit>(
    store: &mut Store<H>,
    name: &Name,
    key: u32,
    shared: &mut Shared<'_, H, K>,
    out: &mut E,
) -> Result<(), Error>
    requires between { IsBetweenSteps (now store.old shared.old) }
    requires active { IsWorking (levels_of store.old.levels) }
    ensures performed { Performed most_calls (elements (item_row (item.Drop name.now key))) (now store.old shared.old) (now store.new shared.new) (λ events. E.emits out.old events out.new) (refusal_of result) }
{
    let Some(kind) = shared.commons.find(name) else {
        return Err(Error::NoSuchName);
    };
    give_back(store, kind, key, shared, out)
}

/// Takes a key of an extension kind in room that was made before, whichever name the kind has.
fn take_extension<H: ResetHook, K: ExtKind, E: Emit>(
    store: &mut Store<H>,
    owner: OwnerId,
    kind: KindId,
    key: u32,
    shared: &mut Shared<'_, H, K>,
    out: &mut E,
) -> Result<(), Error>
    requires keeps { Keeps store.old shared.old.space.now }
    requires serves { Serves store.old.owners shared.old.commons.now }
    requires room { HasRoom 1 (now store.old shared.old) }
    requires owner { IsLevelOwner store.old owner }
    requires live { IsLive store.old.owners owner }
    requires spare { 1 ≤ spare_of owner.number store.old.owners }
    requires not_begun { has_begun owner.number (owners_of store.old.owners) ≡ false }
    requires kind { IsExtension (table_of shared.old.commons.now.kinds) kind }
    ensures performed { (name : Text) → kind_named name shared.old.commons.now.kinds ≡ Some kind → Performed 1 (e.TakeNamed name key ∷ []) (now store.old shared.old) (now store.new shared.new) (λ events. E.emits out.old events out.new) (refusal_of result) }
{
    shared.calls.next()?;
    if let Err(error) = store.take_extension(owner, kind, key, shared.commons, out) {
        return Err(kind_error(error, shared.calls.count));
    }
    Ok(())
}
