//! Lines are performed, and their errors recovered from.
ghost use Rattle.std.specs.Prelude.{◌≡◌, IfSome, option_copied};
ghost use Rattle.pgs_command.specs.Ranges.{IsInRange};
ghost use Rattle.session_rules.specs.Transcript.{is_want};
ghost use Rattle.session_core.specs.Lines.{IsBetweenLines};
ghost use Rattle.session_commands.specs.Performed.{now, most_steps, HasRoom};
ghost use Rattle.session_core.specs.Turns.{Turned};

use crate::session::Session;
use owner_kinds::ExtKind;
use pgs_command::Command;
use pgs_step::{Emit, Error};
use reset_callbacks::ResetHook;
use session_commands::Shared;

impl<H: ResetHook> Session<H> {
    /// Performs what a line says, and recovers where that fails; a bad line is nothing but its error.
    ///
    /// Answers whether the error was a want of memory, which ends a script.
    pub fn take_turn<K: ExtKind, E: Emit>(
        &mut self,
        command: Option<&Command>,
        shared: &mut Shared<'_, H, K>,
        out: &mut E,
    ) -> bool
        requires lines { IsBetweenLines (now self.old shared.old) }
        requires range { IfSome (option_copied command) IsInRange }
        requires room { HasRoom most_steps (now self.old shared.old) }
        ensures turn { Turned (option_copied command.entry) (now self.old shared.old) (now self.new shared.new) (λ events. E.emits out.old events out.new) result }
        ensures lines { IsBetweenLines (now self.new shared.new) }
    {
        let Some(command) = command else {
            self.recover(Error::SyntaxError, shared, out);
            return false;
        };
        match self.perform(command, shared, out) {
            Ok(()) => false,
            Err(error) => {
                self.recover(error, shared, out);
                is_want(error)
            }
        }
    }
}

/// Whether an error is a want of memory.
fn is_want(error: Error) -> bool
    ensures { result ≡ is_want error }
{
    matches!(error, Error::NoMemory(_))
}
