//! The commands that only tell what is there.
ghost use Rattle.std.specs.Prelude.{◌≡◌, ◌<◌, None};
ghost use Rattle.session_rules.specs.Works.{tell_row, elements};
ghost use Rattle.session_commands.specs.Answers.{refusal_of};
ghost use Rattle.session_commands.specs.Performed.{now, HasRoom, IsBetweenSteps, Performed, most_calls};

use crate::items::BUFFERS;
use crate::shared::Shared;
use owner_kinds::ExtKind;
use pgs_command::TellCommand;
use pgs_step::{Emit, Error, What};
use reset_callbacks::ResetHook;
use session_store::Store;

/// What a command does that only tells what is there.
pub fn tell<H: ResetHook, K: ExtKind, E: Emit>(
    store: &Store<H>,
    command: &TellCommand,
    shared: &Shared<'_, H, K>,
    out: &mut E,
) -> Result<(), Error>
    requires between { IsBetweenSteps (now store.now shared.now) }
    ensures performed { Performed most_calls (elements (tell_row command.now)) (now store.now shared.now) (now store.now shared.now) (λ events. E.emits out.old events out.new) (refusal_of result) }
{
    match command {
        TellCommand::Report => {
            tell_contexts(store, shared, out);
            Ok(())
        }
        TellCommand::Stat => {
            tell_counts(store, shared, out);
            Ok(())
        }
        TellCommand::Buffer(buffer) => tell_buffer(store, *buffer, shared, out),
    }
}

/// `report`: tells what each context holds, and all together: `MemoryContextStats`.
fn tell_contexts<H: ResetHook, K: ExtKind, E: Emit>(
    store: &Store<H>,
    shared: &Shared<'_, H, K>,
    out: &mut E,
)
    requires between { IsBetweenSteps (now store.now shared.now) }
    ensures performed { Performed most_calls (elements (tell_row TellCommand.Report)) (now store.now shared.now) (now store.now shared.now) (λ events. E.emits out.old events out.new) None }
{
    store.report(out);
}

/// `stat`: tells how much the session holds of everything.
fn tell_counts<H: ResetHook, K: ExtKind, E: Emit>(
    store: &Store<H>,
    shared: &Shared<'_, H, K>,
    out: &mut E,
)
    requires between { IsBetweenSteps (now store.now shared.now) }
    ensures performed { Performed most_calls (elements (tell_row TellCommand.Stat)) (now store.now shared.now) (now store.now shared.now) (λ events. E.emits out.old events out.new) None }
{
    out.emit(What::Stat(store.counts()));
}

/// `buffer`: tells how many sessions pin a buffer.
fn tell_buffer<H: ResetHook, K: ExtKind, E: Emit>(
    store: &Store<H>,
    buffer: u32,
    shared: &Shared<'_, H, K>,
    out: &mut E,
) -> Result<(), Error>
    requires between { IsBetweenSteps (now store.now shared.now) }
    ensures performed { Performed most_calls (elements (tell_row (TellCommand.Buffer buffer))) (now store.now shared.now) (now store.now shared.now) (λ events. E.emits out.old events out.new) (refusal_of result) }
{
    if buffer >= BUFFERS {
        return Err(Error::NoSuchBuffer);
    }
    let sessions = store.pinned(buffer, shared.commons);
    out.emit(What::Buffer { buffer, sessions });
    Ok(())
}
