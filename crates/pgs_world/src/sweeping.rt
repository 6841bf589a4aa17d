//! Runs a script once with no failing call, and then once with each of its first calls failing in turn.
ghost use Rattle.std.specs.Prelude.{◌≡◌, ◌<◌, ◌≤◌, ℕ, true, false, List, [], Option, length, min, nat_lt, if◌then◌else◌, replicate, vec_capacity, IfSome, IfNone, ◌==◌};
ghost use Rattle.std.specs.Io.KnownBytes.{append_known};
ghost use Rattle.addr_space.specs.Space.{accounts, held};
ghost use Rattle.owner_kinds.specs.KindShelf.{table_of};
ghost use Rattle.owner_kinds.specs.KindTable.{IsSound};
ghost use Rattle.pgs_io.specs.Faults.{HasRisen};
ghost use Rattle.pgs_io.specs.Lines.{lines_of};
ghost use Rattle.reset_callbacks.specs.Hook.{AreDistinct};
ghost use Rattle.reset_callbacks.specs.ShelfState as shelf_state;
ghost use Rattle.session_rules.specs.Modes.{most_failing};
ghost use Rattle.pgs_turns.specs.Generating.{IsFront};
ghost use Rattle.pgs_turns.specs.Sweeping.{run_numbers, setting_for_run, shelf_for};
ghost use Rattle.pgs_turns.specs.World.{run_of, setting_at, setting_of, AreStanding, HaveDescriptors, IsOpening};
ghost use Rattle.pgs_world.specs.Outcome.{setting_for};
ghost use Rattle.pgs_world.specs.Plays.{outside};
ghost use Rattle.pgs_world.specs.Sweep.{IsRead, Sweeps};
ghost use Rattle.pgs_world.specs.SweepSteps.{EndsRun, IsUnplayed, RunsOnce};

use crate::program::{NOT_STARTED, Places};
use crate::whole_script::{MOST_SWEPT, Unread, read_script};
use crate::{Options, Outcome};
use addr_space::Space;
use owner_kinds::{ExtKind, KindShelf};
use pgs_io::{Sink, Source, put_all};
use pgs_turns::{Calls, Session, Shared, count_script, end_unheard, run_line, start_sessions};
use reset_callbacks::{ResetHook, Shelf};
use std::alloc::Global;
use std::mem;

/// The most calls that fail in turn.
const MOST_FAILING: u64 = 2000;

/// What a run did.
#[derive(Clone, Copy)]
struct Ran {
    /// How many fallible calls it made.
    calls: u64,
    /// How many ERROR events there were.
    errors: u64,
    /// Whether the last of the calls met a want of memory, which ended it.
    wanted: bool,
}

/// Reads a script, and runs it once with no failing call and then once for each of its first 2,000 calls, which fails. What the hooks and
/// kinds have counted stays from one run to the next, and all hooks are made fresh between two of them.
///
/// Of each run one line is written: how many calls there were in the first one, which call failed in each other one, and how many ERROR
/// events there were. A script of more than 65,536 bytes isn't run at all.
pub(crate) fn sweep<S: Source, K: Sink, H: ResetHook, X: ExtKind>(
    alloc: Global,
    options: &Options,
    src: &mut S,
    out: &mut K,
    space: &mut Space,
    shelf: &mut Shelf<H>,
    kinds: &mut KindShelf<X>,
) -> Outcome
    requires accounts { options.now.sessions ≤ accounts space.old }
    requires some { 0 < options.now.sessions }
    requires few { options.now.sessions ≤ 64 }
    requires descriptors { 0 < options.now.descriptors }
    requires empty { (account : ℕ) → held space.old account ≡ 0 }
    ensures { Sweeps (setting_for options.now shelf.old kinds.old) result (outside (S.left src.old) (S.faults src.old) (K.written out.old) (K.faults out.old) shelf.old kinds.old)
        (outside (S.left src.new) (S.faults src.new) (K.written out.new) (K.faults out.new) shelf.new kinds.new) space.old space.new }
{
    let Ok(mut script) = Vec::with_capacity(alloc, MOST_SWEPT + 1) else {
        return NOT_STARTED;
    };
    match read_script(src, &mut script) {
        Ok(()) => sweep_script(alloc, options, &script, out, space, shelf, kinds),
        Err(Unread::Fault) => ended(3, 0, 0),
        Err(Unread::TooLong) => ended(6, 0, 0),
    }
}

/// Runs a script that was read.
fn sweep_script<K: Sink, H: ResetHook, X: ExtKind>(
    alloc: Global,
    options: &Options,
    script: &[u8],
    out: &mut K,
    space: &mut Space,
    shelf: &mut Shelf<H>,
    kinds: &mut KindShelf<X>,
) -> Outcome
    requires accounts { options.now.sessions ≤ accounts space.old }
    requires some { 0 < options.now.sessions }
    requires few { options.now.sessions ≤ 64 }
    requires descriptors { 0 < options.now.descriptors }
    requires empty { (account : ℕ) → held space.old account ≡ 0 }
    requires short { length script.now ≤ 65536 }
    ensures { (left left' : Option (List ℕ)) (faults : ℕ) → IsRead script.now left left'
        → Sweeps (setting_for options.now shelf.old kinds.old) result (outside left faults (K.written out.old) (K.faults out.old) shelf.old kinds.old)
        (outside left' faults (K.written out.new) (K.faults out.new) shelf.new kinds.new) space.old space.new }
{
    let (mut errors, mut fail, mut last) = (0, 0, 0);
    while fail <= last {
        let Some(ran) = run_once(alloc, options, fail, script, space, shelf, kinds) else {
            return ended(5, 0, errors);
        };
        errors += ran.errors;
        if ran.wanted {
            return ended(5, ran.calls, errors);
        }
        if !tell(fail, &ran, out) {
            return ended(4, 0, errors);
        }
        last = last_call(fail, last, ran.calls);
        fail += 1;
    }
    ended(whole_status(errors), 0, errors)
}

/// The status of a sweep that was told whole.
fn whole_status(errors: u64) -> u8
    ensures { result ≡ (if nat_lt 0 errors then 1 else 0) }
{
    (errors > 0) as u8
}

/// The last call that fails, where a run tells how many calls there are: the first one does.
fn last_call(fail: u64, last: u64, calls: u64) -> u64
    ensures { result ≡ (if fail == 0 then min calls most_failing else last) }
{
    if fail == 0 {
        return calls.min(MOST_FAILING);
    }
    last
}

/// Writes the line of a run. Answers whether all of it was written.
fn tell<K: Sink>(fail: u64, ran: &Ran, out: &mut K) -> bool
    ensures written { result ≡ true → K.written out.new ≡ append_known (K.written out.old) (run_numbers fail ran.now.calls ran.now.errors) }
    ensures front { result ≡ false → IsFront (run_numbers fail ran.now.calls ran.now.errors) (K.written out.old) (K.written out.new) }
    ensures fault { result ≡ false → HasRisen (K.faults out.old) (K.faults out.new) }
    ensures no_fault { result ≡ true → K.faults out.new ≡ K.faults out.old }
{
    let line = run_line(fail, ran.calls, ran.errors);
    put_all(out, line.as_slice()).is_ok()
}

/// A sweep that ended with this status.
fn ended(status: u8, call: u64, errors: u64) -> Outcome
    ensures { result ≡ record { status = status; call = call; errors = errors; lines = 0 } }
{
    Outcome {
        status,
        call,
        errors,
        lines: 0,
    }
}

/// Runs the script with this call failing, or with none for 0. It answers nothing where there was no memory to start all sessions.
fn run_once<H: ResetHook, X: ExtKind>(
    alloc: Global,
    options: &Options,
    fail: u64,
    script: &[u8],
    space: &mut Space,
    shelf: &mut Shelf<H>,
    kinds: &mut KindShelf<X>,
) -> Option<Ran>
    requires accounts { options.now.sessions ≤ accounts space.old }
    requires some { 0 < options.now.sessions }
    requires few { options.now.sessions ≤ 64 }
    requires descriptors { 0 < options.now.descriptors }
    requires empty { (account : ℕ) → held space.old account ≡ 0 }
    requires short { length script.now ≤ 65536 }
    ensures ran { IfSome result (λ ran. RunsOnce (setting_for_run fail (setting_for options.now shelf.old kinds.old) shelf.old kinds.old) (lines_of script.now) ran shelf.new kinds.new space.old space.new) }
    ensures unplayed { IfNone result (IsUnplayed shelf.old shelf.new kinds.old kinds.new space.old space.new) }
{
    let Ok(places) = Places::new(alloc) else {
        return None;
    };
    let Ok(sessions) = Vec::with_capacity(alloc, options.sessions as usize) else {
        return None;
    };
    // Kinds and hooks are in order by their types: the two calls say so.
    let _ = kinds.names();
    let _ = shelf.fresh();
    run_lent(
        alloc, options, fail, script, places, sessions, space, shelf, kinds,
    )
}

/// Lends space, shelf and kinds to the sessions, and runs the script.
fn run_lent<H: ResetHook, X: ExtKind>(
    alloc: Global,
    options: &Options,
    fail: u64,
    script: &[u8],
    places: Places<H, X>,
    sessions: Vec<Session<H>>,
    space: &mut Space,
    shelf: &mut Shelf<H>,
    kinds: &mut KindShelf<X>,
) -> Option<Ran>
    requires none { sessions.items ≡ [] }
    requires reserved { options.now.sessions ≤ vec_capacity sessions }
    requires unlocked { places.commons.locks ≡ [] }
    requires unpinned { places.commons.pins ≡ replicate 1024 0 }
    requires sound { IsSound (table_of kinds.old) }
    requires accounts { options.now.sessions ≤ accounts space.old }
    requires some { 0 < options.now.sessions }
    requires few { options.now.sessions ≤ 64 }
    requires descriptors { 0 < options.now.descriptors }
    requires empty { (account : ℕ) → held space.old account ≡ 0 }
    requires hooks { AreDistinct (shelf_state.held shelf.old) }
    requires short { length script.now ≤ 65536 }
    ensures ran { IfSome result (λ ran. RunsOnce (setting_for_run fail (setting_for options.now shelf.old kinds.old) shelf.old kinds.old) (lines_of script.now) ran shelf.new kinds.new space.old space.new) }
    ensures unplayed { IfNone result (IsUnplayed shelf.old shelf.new kinds.old kinds.new space.old space.new) }
{
    space.set_limit(options.space as u64);
    let Places {
        space: mut lent_space,
        shelf: mut lent_shelf,
        mut commons,
    } = places;
    mem::swap(space, &mut lent_space);
    mem::swap(shelf, &mut lent_shelf);
    commons.swap_kinds(kinds);
    let mut calls = Calls { count: 0, fail };
    let mut shared = Shared {
        space: &mut lent_space,
        shelf: &mut lent_shelf,
        commons: &mut commons,
        calls: &mut calls,
    };
    let ran = run_shared(alloc, options, script, sessions, &mut shared);
    let Shared {
        space: given_space,
        shelf: given_shelf,
        commons: given_commons,
        calls: _,
    } = shared;
    mem::swap(space, given_space);
    mem::swap(shelf, given_shelf);
    given_commons.swap_kinds(kinds);
    ran
}

/// Starts the sessions and runs the script with them. Where not all of them start, those that did end without a word.
fn run_shared<H: ResetHook, X: ExtKind>(
    alloc: Global,
    options: &Options,
    script: &[u8],
    mut sessions: Vec<Session<H>>,
    shared: &mut Shared<'_, H, X>,
) -> Option<Ran>
    requires none { sessions.items ≡ [] }
    requires reserved { options.now.sessions ≤ vec_capacity sessions }
    requires some { 0 < options.now.sessions }
    requires few { options.now.sessions ≤ 64 }
    requires descriptors { 0 < options.now.descriptors }
    requires accounts { options.now.sessions ≤ accounts shared.old.space.now }
    requires empty { (account : ℕ) → held shared.old.space.now account ≡ 0 }
    requires hooks { AreDistinct (shelf_state.held shared.old.shelf.now) }
    requires kinds { IsSound (table_of shared.old.commons.now.kinds) }
    requires unlocked { shared.old.commons.now.locks ≡ [] }
    requires unpinned { shared.old.commons.now.pins ≡ replicate 1024 0 }
    requires calls { shared.old.calls.now.count ≡ 0 }
    requires short { length script.now ≤ 65536 }
    ensures ran { IfSome result (λ ran. RunsOnce (setting_for_run shared.old.calls.now.fail (setting_at options.now.sessions options.now.descriptors shared.old) shared.old.shelf.now shared.old.commons.now.kinds) (lines_of script.now) ran
        shared.new.shelf.now shared.new.commons.now.kinds shared.old.space.now shared.new.space.now) }
    ensures unplayed { IfNone result (IsUnplayed shared.old.shelf.now shared.new.shelf.now shared.old.commons.now.kinds shared.new.commons.now.kinds shared.old.space.now shared.new.space.now) }
{
    let (count, descriptors) = (options.sessions, options.descriptors);
    let Ok(()) = start_sessions(alloc, count, descriptors, &mut sessions, shared.space) else {
        end_unheard(&mut sessions, shared);
        return None;
    };
    renew_between(shared.calls.fail, shared.shelf);
    Some(run_started(&mut sessions, script, shared))
}

/// Makes the hooks fresh that the run before used. Before the first run, in which no call fails, they stay as they are.
fn renew_between<H: ResetHook>(fail: u64, shelf: &mut Shelf<H>)
    requires hooks { AreDistinct (shelf_state.held shelf.old) }
    ensures renewed { shelf.new ≡ shelf_for fail shelf.old }
    ensures words_differ { AreDistinct (shelf_state.held shelf.new) }
{
    if fail > 0 {
        shelf.renew();
    }
}

/// Performs the script, and ends all sessions.
fn run_started<H: ResetHook, X: ExtKind>(
    sessions: &mut [Session<H>],
    script: &[u8],
    shared: &mut Shared<'_, H, X>,
) -> Ran
    requires opening { IsOpening (run_of sessions.old shared.old) }
    requires standing { AreStanding 0 (run_of sessions.old shared.old) }
    requires few { length sessions.old ≤ 64 }
    requires short { length script.now ≤ 65536 }
    ensures { (descriptors : ℕ) → HaveDescriptors descriptors (run_of sessions.old shared.old)
        → EndsRun (length sessions.old) (setting_of descriptors (run_of sessions.old shared.old)) (lines_of script.now) result shared.new.shelf.now shared.new.commons.now.kinds shared.old.space.now shared.new.space.now }
{
    let counted = count_script(sessions, script, shared);
    Ran {
        calls: shared.calls.count,
        errors: counted.errors,
        wanted: counted.wanted,
    }
}
