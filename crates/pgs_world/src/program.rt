//! Runs a script from the bytes that are read, or the one that is made, to the bytes that are written.
ghost use Rattle.std.specs.Prelude.{◌≡◌, ◌≢◌, ◌<◌, ◌≤◌, ◌⊎◌, ℕ, List, Some, [], length, vec_capacity};
ghost use Rattle.std.specs.Io.KnownBytes.{append_known};
ghost use Rattle.pgs_io.specs.Faults.{HasRisen};
ghost use Rattle.std.specs.Prelude.{map, replicate, true, false, None, ◌++◌, IfOk, Option};
ghost use Rattle.std.specs.Prelude.{string_bytes as string_text};
ghost use Rattle.addr_space.specs.Space.{accounts, held, risen, taken};
ghost use Rattle.reset_callbacks.specs.Hook.{AreDistinct};
ghost use Rattle.reset_callbacks.specs.ShelfState as shelf_state;
ghost use Rattle.pgs_world.specs.Options.{options_of};
ghost use Rattle.pgs_world.specs.declared.options.Options.{Options as Asked};
ghost use Rattle.owner_kinds.specs.KindShelf.{table_of};
ghost use Rattle.owner_kinds.specs.KindTable.{IsSound};
ghost use Rattle.pgs_turns.specs.Transcript.{names_of};
ghost use Rattle.pgs_turns.specs.World.{run_of, setting_at, setting_of, AreKept, AreStanding, HaveDescriptors, IsOpening};
ghost use Rattle.pgs_world.specs.Outcome.{most_bytes, setting_for, usage_line, AskFor, IsWhole, IsWanted, IsCutOff, IsTooLong, IsUnwritten, IsNotStarted, IsSharedOut, IsUsageFront, CountsErrors, TakesAll, TakesSoFar, ForMade, ForScript, ForSweep};
ghost use Rattle.pgs_world.specs.Ending.{generated_outcome, generated_status, outcome_of, status_of};
ghost use Rattle.pgs_world.specs.Generated.{IsGenerated, IsMade, IsStopped, IsUntold};
ghost use Rattle.pgs_world.specs.Lawful.{AreLawful, AreMadeOnce, IsMadeLawfully};
ghost use Rattle.pgs_world.specs.Sweep.{most_swept, Sweeps};
ghost use Rattle.pgs_world.specs.Plays.{outside, Ends, EndsMade, Plays};
ghost use Rattle.session_rules.specs.Modes.{made_script};
ghost use Rattle.pgs_turns.specs.Courses.{TakesInAll};

use crate::performing::{End, Ended, perform_lines};
use crate::printer::Printer;
use crate::sweeping::sweep;
use crate::{Options, OptionsError, read_options};
use addr_space::Space;
use owner_kinds::{ExtKind, KindShelf};
use pgs_io::{Sink, Source, put_all};
use pgs_step::Name;
use pgs_turns::{
    Calls, Generated, Session, Shared, end_unheard, exit_all, generate, start_sessions,
};
use reset_callbacks::{ResetHook, Shelf};
use session_owners::Commons;
use std::alloc::{AllocError, Global};
use std::mem;

/// What refused words are answered with.
const USAGE: &[u8] =
    b"usage: pgscript [--space N] [--sessions N] [--descriptors N] [--fail N] [--generate N] [--sweep]\n";

/// What a run did.
///
/// `status` is the exit status of the program: 0 for a transcript without an ERROR event, 1 for one with
/// such an event, 2 for refused words, 3 for a source that failed, 4 for a sink that failed, 5 for a want of
/// memory, 6 for a script of more than 2^24 bytes, or 65,536 where it is swept. `call` is the number of the
/// fallible call that met a want of memory, counted from 1 over the whole run, or over that run of a sweep, and 0
/// where none did or where not all sessions were started. `errors` counts the ERROR events, of all runs of a sweep,
/// and `lines` the lines that were performed, those that say nothing among them; in a sweep it is 0.
#[derive(Clone, Copy, Debug, PartialEq, Eq)]
pub struct Outcome {
    pub status: u8,
    pub call: u64,
    pub errors: u64,
    pub lines: u64,
}

/// A run that read nothing and wrote nothing.
pub(crate) const NOT_STARTED: Outcome = Outcome {
    status: 5,
    call: 0,
    errors: 0,
    lines: 0,
};

/// Does all that the program `pgscript` does: it reads a script from the source and writes its transcript
/// to the sink. Where the words ask for rounds of the script that is made, it reads nothing, performs that
/// script, and writes one line that tells how many lines, events, ERROR events and fallible calls there were.
/// Where they ask for a sweep, it reads a script of at most 65,536 bytes, runs it with no failing call and then once
/// for each of its first 2,000 fallible calls, which fails, and writes a line for each run: how many fallible calls
/// there were, or which one failed, and how many ERROR events. Before each run but the first all hooks are made fresh.
///
/// `words` are those of the command line, without the program's name; `read_options` reads them. The contexts of
/// session n count for account n - 1 of the space, whose limit is set to what the words say. The hooks of all
/// sessions come from the shelf, and each that ran is handed in there. `acquire` and `drop` find the kinds by their names; the first of
/// them is kind 16 in the library's events.
pub fn run<S: Source, K: Sink, H: ResetHook, X: ExtKind>(
    alloc: Global,
    words: &[String],
    src: &mut S,
    out: &mut K,
    space: &mut Space,
    shelf: &mut Shelf<H>,
    kinds: &mut KindShelf<X>,
) -> Outcome
    requires accounts { 64 ≤ accounts space.old }
    requires empty { (account : ℕ) → held space.old account ≡ 0 }
    requires hooks { AreDistinct (shelf_state.held shelf.old) }

    // Status 0 or 1: all of the source was read, and the whole transcript was written.
    ensures whole { ForScript (map string_text words.now) (λ o. (result.status ≡ 0) ⊎ (result.status ≡ 1)
        → IsWhole (setting_for o shelf.old kinds.old) result (S.left src.old) (S.left src.new) (K.written out.old) (K.written out.new) shelf.new kinds.new) }
    ensures counts { ForScript (map string_text words.now) (λ o. (result.status ≡ 0) ⊎ (result.status ≡ 1) → CountsErrors (setting_for o shelf.old kinds.old) result (S.left src.old)) }

    // Each session's account took what the session's opening and its lines ask for, and no other account anything.
    ensures taken { ForScript (map string_text words.now) (λ o. (result.status ≡ 0) ⊎ (result.status ≡ 1) → TakesAll (setting_for o shelf.old kinds.old) (S.left src.old) space.old space.new) }

    // Where the script was cut short by the source or the sink, or is too long, they took what the lines ask that were performed.
    ensures taken_so_far { ForScript (map string_text words.now) (λ o. result.status ≢ 5 → result.call ≡ 0
        → TakesSoFar (setting_for o shelf.old kinds.old) result.lines (S.left src.old) (S.left src.new) space.old space.new) }

    // Unless not all sessions were started, each transcript that these clauses speak of keeps the laws of lifetimes: what is acquired is
    // released exactly once, descendants first, by phase and priority; the end of a level that aborts touches nothing outside it; and each callback
    // runs once, before its memory goes. So does that of the script that is made. And in each no context and no owner is made twice, and none goes
    // that was not made.
    ensures lawful { (o : Asked) → AskFor (map string_text words.now) o → o.sweep ≡ false → (result.status ≡ 5 → 0 < result.call) → AreLawful (setting_for o shelf.old kinds.old) }
    ensures generated_lawful { ForMade (map string_text words.now) (λ o. (result.status ≡ 5 → 0 < result.call) → IsMadeLawfully o.generate (setting_for o shelf.old kinds.old)) }
    ensures made_once { (o : Asked) → AskFor (map string_text words.now) o → o.sweep ≡ false → (result.status ≡ 5 → 0 < result.call) → AreMadeOnce (setting_for o shelf.old kinds.old) }

    // Unless not all sessions were started, the space has the limit that the words say, and no account but a session's took any bytes.
    ensures shared_out { (o : Asked) → AskFor (map string_text words.now) o → o.sweep ≡ false → (result.status ≡ 5 → 0 < result.call) → IsSharedOut o.sessions o.space space.old space.new }

    // Status 2: the words are refused, and nothing was read.
    ensures usage { result.status ≡ 2 → K.written out.new ≡ append_known (K.written out.old) usage_line }
    ensures usage_words { result.status ≡ 2 → options_of (map string_text words.now) ≡ None }
    ensures refused { options_of (map string_text words.now) ≡ None → (result.status ≡ 2) ⊎ (result.status ≡ 4) ⊎ (result.status ≡ 5) }
    ensures refused_unread { options_of (map string_text words.now) ≡ None → (src.new ≡ src.old) × (space.new ≡ space.old) × (shelf.new ≡ shelf.old) × (kinds.new ≡ kinds.old) }
    ensures refused_counts { options_of (map string_text words.now) ≡ None → (result.call ≡ 0) × (result.errors ≡ 0) × (result.lines ≡ 0) }

    // Status 3: the source failed. Status 6: it has a byte too many.
    ensures source_fault { result.status ≡ 3 → HasRisen (S.faults src.old) (S.faults src.new) }
    ensures cut_off { ForScript (map string_text words.now) (λ o. result.status ≡ 3
        → IsCutOff (setting_for o shelf.old kinds.old) result (S.left src.old) (S.left src.new) (K.written out.old) (K.written out.new) shelf.new kinds.new) }
    ensures too_long { ForScript (map string_text words.now) (λ o. result.status ≡ 6
        → IsTooLong (setting_for o shelf.old kinds.old) result (S.left src.old) (S.left src.new) (K.written out.old) (K.written out.new) shelf.new kinds.new) }

    // Status 4: the sink failed.
    ensures sink_fault { result.status ≡ 4 → HasRisen (K.faults out.old) (K.faults out.new) }
    ensures unwritten { ForScript (map string_text words.now) (λ o. result.status ≡ 4
        → IsUnwritten (setting_for o shelf.old kinds.old) result (S.left src.old) (S.left src.new) (K.written out.old) (K.written out.new) shelf.new kinds.new) }
    ensures usage_unwritten { options_of (map string_text words.now) ≡ None → result.status ≡ 4 → IsUsageFront (K.written out.old) (K.written out.new) }

    // Status 5: memory was wanted, at the call that is named, or before all sessions had started.
    ensures wanted { ForScript (map string_text words.now) (λ o. result.status ≡ 5 → 0 < result.call
        → IsWanted (setting_for o shelf.old kinds.old) result (S.left src.old) (S.left src.new) (K.written out.old) (K.written out.new) shelf.new kinds.new) }
    ensures not_started { ((o : Asked) → AskFor (map string_text words.now) o → o.sweep ≡ false) → result.status ≡ 5 → result.call ≡ 0
        → IsNotStarted result (S.left src.old) (S.left src.new) (K.written out.old) (K.written out.new) shelf.old shelf.new kinds.old kinds.new }

    // With rounds of the script that is made nothing is read, and what is written is one line that tells of the run.
    ensures generated { ForMade (map string_text words.now) (λ o. (result.status ≡ 0) ⊎ (result.status ≡ 1)
        → IsGenerated o.generate (setting_for o shelf.old kinds.old) result (K.written out.old) (K.written out.new) shelf.new kinds.new) }
    ensures generated_taken { ForMade (map string_text words.now) (λ o. (result.status ≡ 0) ⊎ (result.status ≡ 1)
        → TakesInAll (setting_for o shelf.old kinds.old) (made_script o.generate) space.old space.new) }
    ensures generated_untold { ForMade (map string_text words.now) (λ o. result.status ≡ 4
        → IsUntold o.generate (setting_for o shelf.old kinds.old) result (K.written out.old) (K.written out.new) shelf.new kinds.new) }
    ensures generated_stopped { ForMade (map string_text words.now) (λ o. result.status ≡ 5 → 0 < result.call
        → IsStopped o.generate (setting_for o shelf.old kinds.old) result (K.written out.old) (K.written out.new) shelf.new kinds.new) }
    ensures generated_unread { ForMade (map string_text words.now) (λ o. src.new ≡ src.old) }
    ensures generated_call { ForMade (map string_text words.now) (λ o. result.status ≢ 5 → result.call ≡ 0) }
    ensures generated_statuses { ForMade (map string_text words.now) (λ o. IsMade result.status) }

    // A sweep, by its status: which lines were written, how many errors all runs had, and what became of hooks and kinds. The transcripts of all
    // runs that were played keep the laws of lifetimes.
    ensures swept { ForSweep (map string_text words.now) (λ o. Sweeps (setting_for o shelf.old kinds.old) result
        (outside (S.left src.old) (S.faults src.old) (K.written out.old) (K.faults out.old) shelf.old kinds.old)
        (outside (S.left src.new) (S.faults src.new) (K.written out.new) (K.faults out.new) shelf.new kinds.new) space.old space.new) }

    // A fault that was met shows in the status, and there are no other statuses.
    ensures source_grew { S.faults src.old < S.faults src.new → (result.status ≡ 3) ⊎ (result.status ≡ 4) }
    ensures sink_grew { K.faults out.old < K.faults out.new → result.status ≡ 4 }
    ensures statuses { result.status ≤ 6 }
    ensures call { result.status ≢ 4 → result.status ≢ 5 → result.call ≡ 0 }

    // Whatever the answer, the space holds nothing again, and each extension kind holds each key as often as before.
    ensures given_back { (account : ℕ) → held space.new account ≡ 0 }
    ensures accounts { accounts space.new ≡ accounts space.old }
    ensures kinds_kept { AreKept kinds.old kinds.new }

    // Accepted words, no fault and no byte too many give the whole transcript, unless memory was wanted.
    ensures complete { (o : Asked) → AskFor (map string_text words.now) o → (bytes : List ℕ) → S.left src.old ≡ Some bytes → length bytes ≤ most_bytes → (o.sweep ≡ true → length bytes ≤ most_swept)
        → ¬ HasRisen (S.faults src.old) (S.faults src.new) → ¬ HasRisen (K.faults out.old) (K.faults out.new)
        → (result.status ≡ 0) ⊎ (result.status ≡ 1) ⊎ (result.status ≡ 5) }
{
    match read_options(alloc, words) {
        Ok(options) if options.sweep => sweep(alloc, &options, src, out, space, shelf, kinds),
        Ok(options) => start(alloc, &options, src, out, space, shelf, kinds),
        Err(OptionsError::Refused) => refuse(out),
        Err(OptionsError::Memory) => NOT_STARTED,
    }
}

/// Plays the script where there is memory for what the sessions need before they start.
fn start<S: Source, K: Sink, H: ResetHook, X: ExtKind>(
    alloc: Global,
    options: &Options,
    src: &mut S,
    out: &mut K,
    space: &mut Space,
    shelf: &mut Shelf<H>,
    kinds: &mut KindShelf<X>,
) -> Outcome
    requires accounts { options.now.sessions ≤ accounts space.old }
    requires some { 0 < options.now.sessions }
    requires few { options.now.sessions ≤ 64 }
    requires rounds { options.now.generate ≤ 10000 }
    requires descriptors { 0 < options.now.descriptors }
    requires empty { (account : ℕ) → held space.old account ≡ 0 }
    requires hooks { AreDistinct (shelf_state.held shelf.old) }
    ensures plays { Plays options.now.generate (setting_for options.now shelf.old kinds.old) result (outside (S.left src.old) (S.faults src.old) (K.written out.old) (K.faults out.old) shelf.old kinds.old)
        (outside (S.left src.new) (S.faults src.new) (K.written out.new) (K.faults out.new) shelf.new kinds.new) space.old space.new }
    ensures unread { 0 < options.now.generate → src.new ≡ src.old }
    ensures lawful { (result.status ≡ 5 → 0 < result.call) → AreLawful (setting_for options.now shelf.old kinds.old) }
    ensures made_once { (result.status ≡ 5 → 0 < result.call) → AreMadeOnce (setting_for options.now shelf.old kinds.old) }
{
    let Ok(places) = Places::new(alloc) else {
        return NOT_STARTED;
    };
    let Ok(names) = Vec::from_slice(alloc, kinds.names()) else {
        return NOT_STARTED;
    };
    let Ok(sessions) = Vec::with_capacity(alloc, options.sessions as usize) else {
        return NOT_STARTED;
    };
    play_lent(
        alloc, options, places, sessions, &names, src, out, space, shelf, kinds,
    )
}

/// What stands in the places of the space, of the shelf and of the kinds while these are lent to the sessions: the kinds are lent in
/// the commons of the run.
#[derive(Drop)]
pub(crate) struct Places<H: ResetHook, X: ExtKind> {
    pub(crate) space: Space,
    pub(crate) shelf: Shelf<H>,
    pub(crate) commons: Commons<X>,
}

impl<H: ResetHook, X: ExtKind> Places<H, X> {
    /// A space, a shelf and commons without anything. It fails for want of memory alone.
    pub(crate) fn new(alloc: Global) -> Result<Places<H, X>, AllocError>
        ensures unlocked { IfOk result (λ places. places.commons.locks ≡ []) }
        ensures unpinned { IfOk result (λ places. places.commons.pins ≡ replicate 1024 0) }
    {
        Ok(Places {
            space: Space::new(alloc, 0, 0)?,
            shelf: Shelf::new(alloc, Vec::new(alloc))?,
            commons: Commons::new(alloc)?,
        })
    }
}

/// Lends space, shelf and kinds to the sessions, and plays the script.
fn play_lent<S: Source, K: Sink, H: ResetHook, X: ExtKind>(
    alloc: Global,
    options: &Options,
    places: Places<H, X>,
    sessions: Vec<Session<H>>,
    names: &[Name],
    src: &mut S,
    out: &mut K,
    space: &mut Space,
    shelf: &mut Shelf<H>,
    kinds: &mut KindShelf<X>,
) -> Outcome
    requires none { sessions.items ≡ [] }
    requires reserved { options.now.sessions ≤ vec_capacity sessions }
    requires names { names.now ≡ names_of kinds.old }
    requires unlocked { places.commons.locks ≡ [] }
    requires unpinned { places.commons.pins ≡ replicate 1024 0 }
    requires sound { IsSound (table_of kinds.old) }
    requires accounts { options.now.sessions ≤ accounts space.old }
    requires some { 0 < options.now.sessions }
    requires few { options.now.sessions ≤ 64 }
    requires rounds { options.now.generate ≤ 10000 }
    requires descriptors { 0 < options.now.descriptors }
    requires empty { (account : ℕ) → held space.old account ≡ 0 }
    requires hooks { AreDistinct (shelf_state.held shelf.old) }
    ensures plays { Plays options.now.generate (setting_for options.now shelf.old kinds.old) result (outside (S.left src.old) (S.faults src.old) (K.written out.old) (K.faults out.old) shelf.old kinds.old)
        (outside (S.left src.new) (S.faults src.new) (K.written out.new) (K.faults out.new) shelf.new kinds.new) space.old space.new }
    ensures unread { 0 < options.now.generate → src.new ≡ src.old }
{
    space.set_limit(options.space as u64);
    let Places {
        space: mut lent_space,
        shelf: mut lent_shelf,
        mut commons,
    } = places;
    mem::swap(space, &mut lent_space);
    mem::swap(shelf, &mut lent_shelf);
    commons.swap_kinds(kinds);
    let mut calls = Calls {
        count: 0,
        fail: options.fail as u64,
    };
    let mut shared = Shared {
        space: &mut lent_space,
        shelf: &mut lent_shelf,
        commons: &mut commons,
        calls: &mut calls,
    };
    let outcome = play(alloc, options, sessions, names, src, out, &mut shared);
    let Shared {
        space: given_space,
        shelf: given_shelf,
        commons: given_commons,
        calls: _,
    } = shared;
    mem::swap(space, given_space);
    mem::swap(shelf, given_shelf);
    given_commons.swap_kinds(kinds);
    outcome
}

/// Starts the sessions and plays the script with them. Where not all of them start, those that did end without a word.
fn play<S: Source, K: Sink, H: ResetHook, X: ExtKind>(
    alloc: Global,
    options: &Options,
    mut sessions: Vec<Session<H>>,
    names: &[Name],
    src: &mut S,
    out: &mut K,
    shared: &mut Shared<'_, H, X>,
) -> Outcome
    requires none { sessions.items ≡ [] }
    requires some { 0 < options.now.sessions }
    requires descriptors { 0 < options.now.descriptors }
    requires reserved { options.now.sessions ≤ vec_capacity sessions }
    requires few { options.now.sessions ≤ 64 }
    requires rounds { options.now.generate ≤ 10000 }
    requires accounts { options.now.sessions ≤ accounts shared.old.space.now }
    requires empty { (account : ℕ) → held shared.old.space.now account ≡ 0 }
    requires hooks { AreDistinct (shelf_state.held shared.old.shelf.now) }
    requires kinds { IsSound (table_of shared.old.commons.now.kinds) }
    requires unlocked { shared.old.commons.now.locks ≡ [] }
    requires unpinned { shared.old.commons.now.pins ≡ replicate 1024 0 }
    requires names { names.now ≡ names_of shared.old.commons.now.kinds }
    requires calls { shared.old.calls.now.count ≡ 0 }
    ensures plays { Plays options.now.generate (setting_at options.now.sessions options.now.descriptors shared.old) result (outside (S.left src.old) (S.faults src.old) (K.written out.old) (K.faults out.old) shared.old.shelf.now shared.old.commons.now.kinds)
        (outside (S.left src.new) (S.faults src.new) (K.written out.new) (K.faults out.new) shared.new.shelf.now shared.new.commons.now.kinds) shared.old.space.now shared.new.space.now }
    ensures unread { 0 < options.now.generate → src.new ≡ src.old }
{
    let (count, descriptors) = (options.sessions, options.descriptors);
    let Ok(()) = start_sessions(alloc, count, descriptors, &mut sessions, shared.space) else {
        end_unheard(&mut sessions, shared);
        return NOT_STARTED;
    };
    if options.generate > 0 {
        return play_made(&mut sessions, options.generate, out, shared);
    }
    play_started(&mut sessions, names, src, out, shared)
}

/// Plays the script of so many rounds that is made, and ends all sessions.
fn play_made<K: Sink, H: ResetHook, X: ExtKind>(
    sessions: &mut [Session<H>],
    rounds: u16,
    out: &mut K,
    shared: &mut Shared<'_, H, X>,
) -> Outcome
    requires opening { IsOpening (run_of sessions.old shared.old) }
    requires standing { AreStanding 0 (run_of sessions.old shared.old) }
    requires few { length sessions.old ≤ 64 }
    requires rounds { rounds ≤ 10000 }
    ensures { (descriptors : ℕ) → HaveDescriptors descriptors (run_of sessions.old shared.old) → (left : Option (List ℕ)) (faults : ℕ)
        → EndsMade rounds (length sessions.old) (setting_of descriptors (run_of sessions.old shared.old)) result (outside left faults (K.written out.old) (K.faults out.old) shared.old.shelf.now shared.old.commons.now.kinds)
        (outside left faults (K.written out.new) (K.faults out.new) shared.new.shelf.now shared.new.commons.now.kinds) shared.old.space.now shared.new.space.now }
{
    let generated = generate(sessions, rounds, out, shared);
    generated_outcome(&generated, shared.calls.count)
}

/// Plays the script to its end, and ends all sessions.
fn play_started<S: Source, K: Sink, H: ResetHook, X: ExtKind>(
    sessions: &mut [Session<H>],
    names: &[Name],
    src: &mut S,
    out: &mut K,
    shared: &mut Shared<'_, H, X>,
) -> Outcome
    requires opening { IsOpening (run_of sessions.old shared.old) }
    requires standing { AreStanding 0 (run_of sessions.old shared.old) }
    requires few { length sessions.old ≤ 64 }
    requires names { names.now ≡ names_of shared.old.commons.now.kinds }
    ensures { (descriptors : ℕ) → HaveDescriptors descriptors (run_of sessions.old shared.old)
        → Ends (length sessions.old) (setting_of descriptors (run_of sessions.old shared.old)) result (outside (S.left src.old) (S.faults src.old) (K.written out.old) (K.faults out.old) shared.old.shelf.now shared.old.commons.now.kinds)
        (outside (S.left src.new) (S.faults src.new) (K.written out.new) (K.faults out.new) shared.new.shelf.now shared.new.commons.now.kinds) shared.old.space.now shared.new.space.now }
{
    let mut printer = Printer::new(out, names);
    let ended = perform_lines(sessions, src, shared, &mut printer);
    exit_all(sessions, shared, &mut printer);
    printer.flush();
    made_outcome(
        ended,
        shared.calls.count,
        printer.has_failed(),
        printer.errors(),
    )
}

/// What the end of a script, the count of fallible calls, a failed write and the count of errors make.
fn made_outcome(ended: Ended, calls: u64, failed: bool, errors: u64) -> Outcome
    ensures { result ≡ outcome_of ended calls failed errors }
{
    Outcome {
        status: status(ended.end, failed, errors),
        call: if ended.end == End::Wanted { calls } else { 0 },
        errors,
        lines: ended.lines,
    }
}

fn status(end: End, failed: bool, errors: u64) -> u8
    ensures { result ≡ status_of end failed errors }
{
    if failed {
        return 4;
    }
    match end {
        End::Whole => (errors > 0) as u8,
        End::Wanted => 5,
        End::SourceFault => 3,
        End::TooLong => 6,
        End::Unwritten => 4,
    }
}

/// What a run of the script that is made and the count of fallible calls make.
fn generated_outcome(generated: &Generated, calls: u64) -> Outcome
    ensures { result ≡ generated_outcome generated.now calls }
{
    Outcome {
        status: generated_status(generated),
        call: if generated.wanted { calls } else { 0 },
        errors: generated.errors,
        lines: generated.lines,
    }
}

fn generated_status(generated: &Generated) -> u8
    ensures { result ≡ generated_status generated.now.failed generated.now.wanted generated.now.errors }
{
    if generated.failed {
        return 4;
    }
    if generated.wanted {
        return 5;
    }
    (generated.errors > 0) as u8
}

/// Answers refused words with the usage line.
fn refuse<K: Sink>(out: &mut K) -> Outcome
    ensures status { (result.status ≡ 2) ⊎ (result.status ≡ 4) }
    ensures counts { (result.call ≡ 0) × (result.errors ≡ 0) × (result.lines ≡ 0) }
    ensures usage { result.status ≡ 2 → K.written out.new ≡ append_known (K.written out.old) usage_line }
    ensures no_fault { result.status ≡ 2 → K.faults out.new ≡ K.faults out.old }
    ensures fault { result.status ≡ 4 → HasRisen (K.faults out.old) (K.faults out.new) }
    ensures front { result.status ≡ 4 → IsUsageFront (K.written out.old) (K.written out.new) }
{
    let status = match put_all(out, USAGE) {
        Ok(()) => 2,
        Err(_) => 4,
    };
    Outcome {
        status,
        call: 0,
        errors: 0,
        lines: 0,
    }
}
