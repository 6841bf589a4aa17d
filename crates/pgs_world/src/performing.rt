//! Reads a script line by line, and performs each line.
ghost use Rattle.std.specs.Prelude.{◌≡◌, ◌≤◌, ℕ, List, [], length, true, false, IfSome, IfNone, IfOk, IfErr, OnOk};
ghost use Rattle.pgs_io.specs.declared.feeding.TheConstants.{MOST_READ};
ghost use Rattle.pgs_io.specs.Faults.{HasRisen};
ghost use Rattle.pgs_io.specs.Lines.{IsKept};
ghost use Rattle.pgs_io.specs.Feeding.{GivesLine};
ghost use Rattle.pgs_command.specs.Lines.{read_line};
ghost use Rattle.pgs_turns.specs.Script.{said_in};
ghost use Rattle.pgs_world.specs.PrinterView.{IsGoing, ShowsEvents, ShowsInTime, TakesEvents};
ghost use Rattle.pgs_turns.specs.World.{run_of, AreStanding, HaveDescriptors, IsOpening};
ghost use Rattle.pgs_turns.specs.Turns.{HaveRoom, TakesTurn};
ghost use Rattle.pgs_world.specs.Loop.{Performs, Meets, is_wanted_in, IsLineEnd, OnSourceFault, OnNoSourceFault, OnUnwritten};

use crate::printer::Printer;
use owner_kinds::ExtKind;
use pgs_io::{Fed, Feed, LineBuf, Sink, Source};
use pgs_turns::{Said, Session, Shared, is_comment, read_line, take_turn};
use reset_callbacks::ResetHook;

/// The most bytes that a script has.
pub(crate) const MOST_BYTES: u32 = 1 << 24;

/// Why the reading of a script ended.
#[derive(Clone, Copy, PartialEq, Eq)]
pub(crate) enum End {
    /// All of it was performed.
    Whole,
    /// A line met a want of memory.
    Wanted,
    /// The source failed.
    SourceFault,
    /// The script has more bytes than it may have.
    TooLong,
    /// The sink failed.
    Unwritten,
}

/// How the reading of a script ended, and how many lines were performed.
#[derive(Clone, Copy)]
pub(crate) struct Ended {
    pub(crate) end: End,
    pub(crate) lines: u64,
}

/// Performs the lines of the source, up to its end or to the first failure.
pub(crate) fn perform_lines<S: Source, K: Sink, H: ResetHook, X: ExtKind>(
    sessions: &mut [Session<H>],
    src: &mut S,
    shared: &mut Shared<'_, H, X>,
    printer: &mut Printer<'_, K>,
) -> Ended
    requires opening { IsOpening (run_of sessions.old shared.old) }
    requires standing { AreStanding 0 (run_of sessions.old shared.old) }
    requires going { IsGoing printer.old }
    ensures performs { (descriptors : ℕ) → HaveDescriptors descriptors (run_of sessions.old shared.old) → Performs descriptors (run_of sessions.old shared.old) result (S.left src.old) (S.left src.new) (run_of sessions.new shared.new)
        (λ xs. ShowsEvents K.written K.faults printer.old xs printer.new) (λ xs ys. ShowsInTime K.written K.faults printer.old xs ys printer.new) }
    ensures standing { AreStanding 0 (run_of sessions.new shared.new) }
    ensures fault { OnSourceFault result.end (HasRisen (S.faults src.old) (S.faults src.new)) }
    ensures no_fault { OnNoSourceFault result.end (S.faults src.new ≡ S.faults src.old) }
    ensures unwritten { OnUnwritten result.end (printer.new.failed ≡ true) }
{
    let mut feed = Feed::new(MOST_BYTES);
    let mut buf = LineBuf::new();
    let mut lines = 0;
    loop {
        if let Some(line) = feed.buffered() {
            let count = line.len();
            let end = perform_line(sessions, line, false, shared, printer);
            feed.pass(count);
            lines += 1;
            if let Some(end) = end {
                return Ended { end, lines };
            }
            continue;
        }
        let long = match next_line(&mut feed, src, &mut buf, printer) {
            Ok(long) => long,
            Err(end) => return Ended { end, lines },
        };
        let end = perform_line(sessions, buf.as_slice(), long, shared, printer);
        lines += 1;
        if let Some(end) = end {
            return Ended { end, lines };
        }
    }
}

/// Reads the next line, and answers whether it is long, or how the reading ended.
///
/// What is printed is handed to the sink before the source is read.
fn next_line<S: Source, K: Sink>(
    feed: &mut Feed,
    src: &mut S,
    buf: &mut LineBuf,
    printer: &mut Printer<'_, K>,
) -> Result<bool, End>
    requires { feed.old.ended ≡ false }
    ensures line { IfOk result (λ long. GivesLine (S.left src.old) (S.left src.new) feed.old feed.new buf.new long) }
    ensures goes_on { OnOk result (feed.new.ended ≡ false) }
    ensures few { OnOk result (length feed.new.pending ≤ MOST_READ) }
    ensures same { OnOk result (S.faults src.new ≡ S.faults src.old) }
    ensures end { IfErr result (λ end. Meets end (S.left src.old) (S.left src.new) feed.old) }
    ensures fault { IfErr result (λ end. OnSourceFault end (HasRisen (S.faults src.old) (S.faults src.new))) }
    ensures no_fault { IfErr result (λ end. OnNoSourceFault end (S.faults src.new ≡ S.faults src.old)) }
    ensures unwritten { IfErr result (λ end. OnUnwritten end (printer.new.failed ≡ true)) }
    ensures printed { TakesEvents K.written K.faults printer.old [] printer.new }
    ensures going { OnOk result (IsGoing printer.new) }
{
    printer.flush();
    if printer.has_failed() {
        return Err(End::Unwritten);
    }
    match feed.line(src, buf) {
        Fed::Line { long } => Ok(long),
        Fed::End => Err(End::Whole),
        Fed::Fault => Err(End::SourceFault),
        Fed::TooLong => Err(End::TooLong),
    }
}

/// Performs a line of which `kept` are the first bytes, and answers whether the script ends with it.
fn perform_line<K: Sink, H: ResetHook, X: ExtKind>(
    sessions: &mut [Session<H>],
    kept: &[u8],
    long: bool,
    shared: &mut Shared<'_, H, X>,
    printer: &mut Printer<'_, K>,
) -> Option<End>
    requires standing { AreStanding 0 (run_of sessions.old shared.old) }
    requires room { HaveRoom (run_of sessions.old shared.old) }
    requires going { IsGoing printer.old }
    ensures turn { (line : List ℕ) → IsKept line kept.now long
        → TakesTurn (said_in (read_line line)) (run_of sessions.old shared.old) (run_of sessions.new shared.new) (λ xs. ShowsEvents K.written K.faults printer.old xs printer.new) (is_wanted_in result) }
    ensures standing { AreStanding 0 (run_of sessions.new shared.new) }
    ensures end { IfSome result (λ end. IsLineEnd end printer.new.failed) }
    ensures going { IfNone result (IsGoing printer.new) }
{
    if is_comment(kept) && !long && !sessions.is_empty() {
        return None;
    }
    perform_said(sessions, kept, long, shared, printer)
}

/// The same, where the line is perhaps no comment.
#[inline(never)]
fn perform_said<K: Sink, H: ResetHook, X: ExtKind>(
    sessions: &mut [Session<H>],
    kept: &[u8],
    long: bool,
    shared: &mut Shared<'_, H, X>,
    printer: &mut Printer<'_, K>,
) -> Option<End>
    requires standing { AreStanding 0 (run_of sessions.old shared.old) }
    requires room { HaveRoom (run_of sessions.old shared.old) }
    requires going { IsGoing printer.old }
    ensures turn { (line : List ℕ) → IsKept line kept.now long
        → TakesTurn (said_in (read_line line)) (run_of sessions.old shared.old) (run_of sessions.new shared.new) (λ xs. ShowsEvents K.written K.faults printer.old xs printer.new) (is_wanted_in result) }
    ensures standing { AreStanding 0 (run_of sessions.new shared.new) }
    ensures end { IfSome result (λ end. IsLineEnd end printer.new.failed) }
    ensures going { IfNone result (IsGoing printer.new) }
{
    let mut said = Said::unread();
    read_line(kept, long, &mut said);
    let wanted = take_turn(sessions, &said, shared, printer);
    if wanted {
        return Some(End::Wanted);
    }
    if printer.has_failed() {
        return Some(End::Unwritten);
    }
    None
}
