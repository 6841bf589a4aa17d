//! The run of the script that is made.
ghost use Rattle.std.specs.Prelude.{◌≡◌, ◌*◌, ◌≤◌, true, false, ℕ, length, take};
ghost use Rattle.std.specs.Io.KnownBytes.{append_known};
ghost use Rattle.pgs_io.specs.Faults.{HasRisen};
ghost use Rattle.session_rules.specs.Modes.{made_script, numbers};
ghost use Rattle.pgs_turns.specs.World.{run_of, AreStanding, HaveDescriptors, IsOpening};
ghost use Rattle.pgs_turns.specs.Courses.{HasPerformed};
ghost use Rattle.pgs_turns.specs.Counting.{TakesEvents};
ghost use Rattle.pgs_turns.specs.Generating.{IsFront, Tells};

use crate::counter::Counter;
use crate::made_lines::{LINES, made_command};
use crate::telling::summary;
use crate::{Session, Shared, exit_all, take_turn};
use owner_kinds::ExtKind;
use pgs_io::{Sink, put_all};
use reset_callbacks::ResetHook;

/// What a run of the script that is made did.
#[derive(Clone, Copy, Debug, PartialEq, Eq)]
pub struct Generated {
    /// How many lines were performed.
    pub lines: u64,
    /// How many ERROR events there were.
    pub errors: u64,
    /// Whether the last of the lines met a want of memory.
    pub wanted: bool,
    /// Whether the line that tells of the run couldn't be written whole.
    pub failed: bool,
}

/// Performs the lines of so many rounds and ends all sessions. Then it writes one line, which tells how many lines, events, ERROR events
/// and fallible calls there were.
///
/// Where a line meets a want of memory the script ends with it, and nothing is written. The count of events stays at 2^64 - 1 once it
/// would pass it.
pub fn generate<K: Sink, H: ResetHook, X: ExtKind>(
    sessions: &mut [Session<H>],
    rounds: u16,
    out: &mut K,
    shared: &mut Shared<'_, H, X>,
) -> Generated
    requires opening { IsOpening (run_of sessions.old shared.old) }
    requires standing { AreStanding 0 (run_of sessions.old shared.old) }
    requires few { length sessions.old ≤ 64 }
    requires rounds { rounds ≤ 10000 }
    ensures tells { (descriptors : ℕ) → HaveDescriptors descriptors (run_of sessions.old shared.old)
        → Tells descriptors (run_of sessions.old shared.old) (run_of sessions.new shared.new) rounds result (K.written out.old) (K.written out.new) }
    ensures fault { result.failed ≡ true → HasRisen (K.faults out.old) (K.faults out.new) }
    ensures no_fault { result.failed ≡ false → K.faults out.new ≡ K.faults out.old }
{
    let mut counter = Counter::new();
    let (lines, wanted) = perform_made(sessions, rounds, shared, &mut counter);
    exit_all(sessions, shared, &mut counter);
    let (events, errors) = counter.counts();
    let failed = !wanted && !tell(lines, events, errors, shared.calls.count, out);
    Generated {
        lines,
        errors,
        wanted,
        failed,
    }
}

/// Performs the lines of so many rounds, up to the first that meets a want of memory.
///
/// Answers how many lines were performed, and whether the last of them met a want.
fn perform_made<H: ResetHook, X: ExtKind>(
    sessions: &mut [Session<H>],
    rounds: u16,
    shared: &mut Shared<'_, H, X>,
    counter: &mut Counter,
) -> (u64, bool)
    requires opening { IsOpening (run_of sessions.old shared.old) }
    requires standing { AreStanding 0 (run_of sessions.old shared.old) }
    requires rounds { rounds ≤ 10000 }
    ensures performed { (descriptors : ℕ) → HaveDescriptors descriptors (run_of sessions.old shared.old)
        → HasPerformed descriptors (run_of sessions.old shared.old) (run_of sessions.new shared.new) (λ events. TakesEvents counter.old events counter.new) (take result.0 (made_script rounds)) result.1 }
    ensures within { result.0 ≤ 13 * rounds }
    ensures whole { result.1 ≡ false → result.0 ≡ 13 * rounds }
    ensures standing { AreStanding 0 (run_of sessions.new shared.new) }
{
    let count = rounds as u32 * LINES;
    for place in 0..count {
        let said = made_command(place / LINES + 1, place % LINES);
        if take_turn(sessions, &said, shared, counter) {
            return (place as u64 + 1, true);
        }
    }
    (count as u64, false)
}

/// Writes what is told of a run. Answers whether all of it was written.
fn tell<K: Sink>(lines: u64, events: u64, errors: u64, calls: u64, out: &mut K) -> bool
    ensures written { result ≡ true → K.written out.new ≡ append_known (K.written out.old) (numbers lines events errors calls) }
    ensures front { result ≡ false → IsFront (numbers lines events errors calls) (K.written out.old) (K.written out.new) }
    ensures fault { result ≡ false → HasRisen (K.faults out.old) (K.faults out.new) }
    ensures no_fault { result ≡ true → K.faults out.new ≡ K.faults out.old }
{
    let line = summary(lines, events, errors, calls);
    put_all(out, line.as_slice()).is_ok()
}
