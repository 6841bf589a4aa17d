//! The run of a script that is kept whole, of which only the errors are counted.
ghost use Rattle.std.specs.Prelude.{◌≡◌, ◌≤◌, false, ℕ, length, take};
ghost use Rattle.pgs_command.specs.Lines.{read_line};
ghost use Rattle.pgs_io.specs.Lines.{lines_of};
ghost use Rattle.session_rules.specs.Transcript.{errors_in};
ghost use Rattle.pgs_turns.specs.Script.{said_in};
ghost use Rattle.pgs_turns.specs.World.{run_of, AreStanding, HaveDescriptors, IsOpening};
ghost use Rattle.pgs_turns.specs.Courses.{HasPerformed, IsOver};
ghost use Rattle.pgs_turns.specs.Counting.{TakesEvents};
ghost use Rattle.pgs_turns.specs.Turns.{HaveRoom, TakesTurn};

use crate::counter::Counter;
use crate::lines::{Said, read_line};
use crate::{Session, Shared, exit_all, take_turn};
use owner_kinds::ExtKind;
use pgs_io::split_line;
use reset_callbacks::ResetHook;

/// How many bytes of a line say what it asks for; one that has more is bad.
const LINE_BYTES: usize = 512;

/// What a run of a script did.
#[derive(Clone, Copy, Debug, PartialEq, Eq)]
pub struct Counted {
    /// How many lines were performed.
    pub lines: u64,
    /// How many ERROR events there were.
    pub errors: u64,
    /// Whether the last of the lines met a want of memory.
    pub wanted: bool,
}

/// Performs the lines of a script, up to the first that meets a want of memory, and ends all sessions. It counts the ERROR events.
pub fn count_script<H: ResetHook, X: ExtKind>(
    sessions: &mut [Session<H>],
    script: &[u8],
    shared: &mut Shared<'_, H, X>,
) -> Counted
    requires opening { IsOpening (run_of sessions.old shared.old) }
    requires standing { AreStanding 0 (run_of sessions.old shared.old) }
    requires few { length sessions.old ≤ 64 }
    requires short { length script.now ≤ 65536 }
    ensures over { (descriptors : ℕ) → HaveDescriptors descriptors (run_of sessions.old shared.old)
        → IsOver descriptors (run_of sessions.old shared.old) (run_of sessions.new shared.new) (λ events. result.errors ≡ errors_in events) (take result.lines (lines_of script.now)) result.wanted }
    ensures within { result.lines ≤ length (lines_of script.now) }
    ensures whole { result.wanted ≡ false → result.lines ≡ length (lines_of script.now) }
{
    let mut counter = Counter::new();
    let (lines, wanted) = perform_script(sessions, script, shared, &mut counter);
    exit_all(sessions, shared, &mut counter);
    let (_, errors) = counter.counts();
    Counted {
        lines,
        errors,
        wanted,
    }
}

/// Performs the lines of a script, up to the first that meets a want of memory.
///
/// Answers how many lines were performed, and whether the last of them met a want.
fn perform_script<H: ResetHook, X: ExtKind>(
    sessions: &mut [Session<H>],
    script: &[u8],
    shared: &mut Shared<'_, H, X>,
    counter: &mut Counter,
) -> (u64, bool)
    requires opening { IsOpening (run_of sessions.old shared.old) }
    requires standing { AreStanding 0 (run_of sessions.old shared.old) }
    requires short { length script.now ≤ 65536 }
    ensures performed { (descriptors : ℕ) → HaveDescriptors descriptors (run_of sessions.old shared.old)
        → HasPerformed descriptors (run_of sessions.old shared.old) (run_of sessions.new shared.new) (λ events. TakesEvents counter.old events counter.new) (take result.0 (lines_of script.now)) result.1 }
    ensures within { result.0 ≤ length (lines_of script.now) }
    ensures whole { result.1 ≡ false → result.0 ≡ length (lines_of script.now) }
    ensures standing { AreStanding 0 (run_of sessions.new shared.new) }
{
    let mut rest = script;
    let mut lines = 0;
    while !rest.is_empty() {
        let (line, behind) = split_line(rest);
        rest = behind;
        lines += 1;
        if perform_kept(sessions, line, shared, counter) {
            return (lines, true);
        }
    }
    (lines, false)
}

/// Performs a line. Answers whether it met a want of memory.
fn perform_kept<H: ResetHook, X: ExtKind>(
    sessions: &mut [Session<H>],
    line: &[u8],
    shared: &mut Shared<'_, H, X>,
    counter: &mut Counter,
) -> bool
    requires standing { AreStanding 0 (run_of sessions.old shared.old) }
    requires room { HaveRoom (run_of sessions.old shared.old) }
    ensures turn { TakesTurn (said_in (read_line line.now)) (run_of sessions.old shared.old) (run_of sessions.new shared.new) (λ events. TakesEvents counter.old events counter.new) result }
    ensures standing { AreStanding 0 (run_of sessions.new shared.new) }
{
    let mut said = Said::unread();
    read_line(front_of(line), line.len() > LINE_BYTES, &mut said);
    take_turn(sessions, &said, shared, counter)
}

/// The first bytes of a line, which say what it asks for.
fn front_of(line: &[u8]) -> &[u8]
    ensures { result.now ≡ take 512 line.now }
{
    &line[..line.len().min(LINE_BYTES)]
}
