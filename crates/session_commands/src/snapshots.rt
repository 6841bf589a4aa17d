//! The commands on the stack of active snapshots.
ghost use Rattle.std.specs.Prelude.{◌≡◌};
ghost use Rattle.session_rules.specs.Works.{snapshot_row, elements};
ghost use Rattle.session_commands.specs.Answers.{refusal_of};
ghost use Rattle.session_commands.specs.Performed.{now, HasRoom, IsBetweenSteps, Performed, most_calls};

use crate::shared::Shared;
use owner_kinds::ExtKind;
use pgs_command::SnapshotCommand;
use pgs_step::{Emit, Error};
use reset_callbacks::ResetHook;
use session_store::Store;

/// What a command on active snapshots does in a transaction that isn't aborted.
pub fn work_on_snapshots<H: ResetHook, K: ExtKind, E: Emit>(
    store: &mut Store<H>,
    command: &SnapshotCommand,
    shared: &mut Shared<'_, H, K>,
    out: &mut E,
) -> Result<(), Error>
    requires between { IsBetweenSteps (now store.old shared.old) }
    requires room { HasRoom most_calls (now store.old shared.old) }
    ensures performed { Performed most_calls (elements (snapshot_row command.now)) (now store.old shared.old) (now store.new shared.new) (λ events. E.emits out.old events out.new) (refusal_of result) }
{
    match command {
        SnapshotCommand::Push(snapshot) => push(store, *snapshot, shared, out),
        SnapshotCommand::Pop => pop(store, shared, out),
    }
}

/// `push`: a snapshot becomes the newest active one, and is of the deepest level: `PushActiveSnapshot`.
fn push<H: ResetHook, K: ExtKind, E: Emit>(
    store: &mut Store<H>,
    snapshot: u32,
    shared: &mut Shared<'_, H, K>,
    out: &mut E,
) -> Result<(), Error>
    requires between { IsBetweenSteps (now store.old shared.old) }
    requires room { HasRoom most_calls (now store.old shared.old) }
    ensures performed { Performed most_calls (elements (snapshot_row (SnapshotCommand.Push snapshot))) (now store.old shared.old) (now store.new shared.new) (λ events. E.emits out.old events out.new) (refusal_of result) }
{
    shared.calls.next()?;
    if let Err(_) = store.push(snapshot, out) {
        return Err(Error::NoMemory(shared.calls.count));
    }
    Ok(())
}

/// `pop`: the newest active snapshot is active no more: `PopActiveSnapshot`.
///
/// `NotHeld` comes where there is none, and where it is of another level than the deepest one.
fn pop<H: ResetHook, K: ExtKind, E: Emit>(
    store: &mut Store<H>,
    shared: &mut Shared<'_, H, K>,
    out: &mut E,
) -> Result<(), Error>
    requires between { IsBetweenSteps (now store.old shared.old) }
    ensures performed { Performed most_calls (elements (snapshot_row SnapshotCommand.Pop)) (now store.old shared.old) (now store.new shared.new) (λ events. E.emits out.old events out.new) (refusal_of result) }
{
    if let Err(_) = store.pop(out) {
        return Err(Error::NotHeld);
    }
    Ok(())
}
