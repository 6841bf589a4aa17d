//! The commands by which the owner of the deepest level takes a lock or gives one back.
ghost use Rattle.std.specs.Prelude.{◌≡◌, [], ◌∷◌};
ghost use Rattle.session_rules.specs.Elements as e;
ghost use Rattle.session_rules.specs.Elements.{OwnerRole};
ghost use Rattle.session_rules.specs.Standing.{IsWorking};
ghost use Rattle.session_rules.specs.Works.{lock_row, elements};
ghost use Rattle.session_store.specs.State.{levels_of};
ghost use Rattle.session_commands.specs.Answers.{refusal_of};
ghost use Rattle.session_commands.specs.Deepest.{IsOwnerOf};
ghost use Rattle.session_commands.specs.Performed.{now, HasRoom, IsBetweenSteps, Performed, most_calls};

use crate::errors::lock_error;
use crate::shared::Shared;
use crate::steps::owner_of_level;
use owner_kinds::ExtKind;
use pgs_command::LockCommand;
use pgs_step::{Emit, Error, Mode, OwnerId};
use reset_callbacks::ResetHook;
use session_store::Store;

/// What a command on locks does in a transaction that isn't aborted.
pub fn work_on_locks<H: ResetHook, K: ExtKind, E: Emit>(
    store: &mut Store<H>,
    command: &LockCommand,
    shared: &mut Shared<'_, H, K>,
    out: &mut E,
) -> Result<(), Error>
    requires between { IsBetweenSteps (now store.old shared.old) }
    requires active { IsWorking (levels_of store.old.levels) }
    requires room { HasRoom most_calls (now store.old shared.old) }
    ensures performed { Performed most_calls (elements (lock_row command.now)) (now store.old shared.old) (now store.new shared.new) (λ events. E.emits out.old events out.new) (refusal_of result) }
{
    match command {
        LockCommand::Lock { object, mode } => lock(store, *object, *mode, shared, out),
        LockCommand::Unlock { object, mode } => unlock(store, *object, *mode, shared, out),
    }
}

/// `lock`: the owner of the deepest level takes a lock on an object.
///
/// `LockHeld` comes where another session holds the object in a mode that conflicts.
fn lock<H: ResetHook, K: ExtKind, E: Emit>(
    store: &mut Store<H>,
    object: u32,
    mode: Mode,
    shared: &mut Shared<'_, H, K>,
    out: &mut E,
) -> Result<(), Error>
    requires between { IsBetweenSteps (now store.old shared.old) }
    requires room { HasRoom most_calls (now store.old shared.old) }
    requires active { IsWorking (levels_of store.old.levels) }
    ensures performed { Performed most_calls (elements (lock_row (LockCommand.Lock object mode))) (now store.old shared.old) (now store.new shared.new) (λ events. E.emits out.old events out.new) (refusal_of result) }
{
    let owner = owner_of_level(store);
    hold_lock(store, owner, object, mode, shared, out)
}

/// An owner takes a lock on an object. The answers are those of `lock`.
pub fn hold_lock<H: ResetHook, K: ExtKind, E: Emit>(
    store: &mut Store<H>,
    owner: OwnerId,
    object: u32,
    mode: Mode,
    shared: &mut Shared<'_, H, K>,
    out: &mut E,
) -> Result<(), Error>
    requires between { IsBetweenSteps (now store.old shared.old) }
    requires room { HasRoom 1 (now store.old shared.old) }
    ensures performed { (role : OwnerRole) → IsOwnerOf role store.old owner → Performed 1 (e.TakeLock role object mode ∷ []) (now store.old shared.old) (now store.new shared.new) (λ events. E.emits out.old events out.new) (refusal_of result) }
{
    shared.calls.next()?;
    if let Err(error) = store.lock(owner, object, mode, shared.commons, out) {
        return Err(lock_error(error, shared.calls.count));
    }
    Ok(())
}

/// `unlock`: the owner of the deepest level gives one lock on an object back.
///
/// `NotHeld` comes where that owner doesn't hold the object in this mode.
fn unlock<H: ResetHook, K: ExtKind, E: Emit>(
    store: &mut Store<H>,
    object: u32,
    mode: Mode,
    shared: &mut Shared<'_, H, K>,
    out: &mut E,
) -> Result<(), Error>
    requires between { IsBetweenSteps (now store.old shared.old) }
    requires active { IsWorking (levels_of store.old.levels) }
    ensures performed { Performed most_calls (elements (lock_row (LockCommand.Unlock object mode))) (now store.old shared.old) (now store.new shared.new) (λ events. E.emits out.old events out.new) (refusal_of result) }
{
    let owner = owner_of_level(store);
    if let Err(_) = store.unlock(owner, object, mode, shared.commons, out) {
        return Err(Error::NotHeld);
    }
    Ok(())
}
