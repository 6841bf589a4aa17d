//! The sessions of a run: they start, take turns and end.
ghost use Rattle.std.specs.Prelude.{◌≡◌, ◌<◌, ◌≤◌, ℕ, List, [], length, vec_capacity, OnOk, IfSome, if◌then◌else◌, nat_lt};
ghost use Rattle.addr_space.specs.Space.{accounts, held, risen, taken};
ghost use Rattle.pgs_command.specs.Ranges.{IsInRange, IsSession};
ghost use Rattle.pgs_turns.specs.World.{run_of, AreStanding, IsOpening};
ghost use Rattle.session_rules.specs.Limits.{asked_at_opening};
ghost use Rattle.session_rules.specs.Transcript.{missing};
ghost use Rattle.pgs_turns.specs.Turns.{AllExit, AreOpened, HaveRoom, TakesTurn};

use crate::lines::Said;
use crate::transcript::{Transcript, Unheard};
use addr_space::Space;
use owner_kinds::ExtKind;
use pgs_command::Command;
use pgs_step::{Error, What};
use reset_callbacks::ResetHook;
use session_core::{Session, Shared, StartError};
use std::alloc::Global;

/// Starts so many sessions, or those before the first that can't be started. Session n counts for account n - 1 of the space, and each
/// has so many descriptors for its files.
pub fn start_sessions<H: ResetHook>(
    alloc: Global,
    count: u8,
    descriptors: u8,
    sessions: &mut Vec<Session<H>>,
    space: &mut Space,
) -> Result<(), StartError>
    requires none { sessions.old.items ≡ [] }
    requires reserved { count ≤ vec_capacity sessions.old }
    requires descriptors { 0 < descriptors }
    requires accounts { count ≤ accounts space.old }
    requires empty { (account : ℕ) → held space.old account ≡ 0 }
    ensures opened { AreOpened descriptors space.old sessions.new.items space.new }
    ensures all { OnOk result (length sessions.new.items ≡ count) }
    ensures few { length sessions.new.items ≤ count }
    ensures asked { OnOk result ((account : ℕ) → taken space.new account ≡ risen (taken space.old account) (if nat_lt account count then asked_at_opening else 0)) }
{
    for account in 0..count {
        match Session::start(alloc, account, account + 1, descriptors, space) {
            Ok(session) => {
                session.beside();
                sessions.push_reserved(session);
            }
            Err(error) => return Err(error),
        }
    }
    Ok(())
}

/// The turn of a line: its session performs it. A line of a session that isn't there is nothing but its error.
///
/// Answers whether the line met a want of memory.
pub fn take_turn<H: ResetHook, X: ExtKind, T: Transcript>(
    sessions: &mut [Session<H>],
    said: &Said,
    shared: &mut Shared<'_, H, X>,
    out: &mut T,
) -> bool
    requires standing { AreStanding 0 (run_of sessions.old shared.old) }
    requires session { IsSession said.now.session }
    requires range { IfSome said.now.command IsInRange }
    requires room { HaveRoom (run_of sessions.old shared.old) }
    ensures turn { TakesTurn said.now (run_of sessions.old shared.old) (run_of sessions.new shared.new) (λ events. T.shows out.old events out.new) result }
    ensures standing { AreStanding 0 (run_of sessions.new shared.new) }
{
    out.turn_to(said.session);
    let place = said.session as usize - 1;
    if place >= sessions.len() {
        out.emit(What::Error(missing_error(&said.command)));
        return false;
    }
    let session = &mut sessions[place];
    let wanted = session.take_turn(said.command.as_ref(), shared, out);
    session.beside();
    wanted
}

/// The error of a line of a session that isn't there.
fn missing_error(command: &Option<Command>) -> Error
    ensures { result ≡ missing command.now }
{
    match command {
        Some(_) => Error::NoSuchSession,
        None => Error::SyntaxError,
    }
}

/// All sessions end, in the order of their numbers.
pub fn exit_all<H: ResetHook, X: ExtKind, T: Transcript>(
    sessions: &mut [Session<H>],
    shared: &mut Shared<'_, H, X>,
    out: &mut T,
)
    requires standing { AreStanding 0 (run_of sessions.old shared.old) }
    requires few { length sessions.old ≤ 64 }
    ensures exits { AllExit (run_of sessions.old shared.old) (run_of sessions.new shared.new) (λ events. T.shows out.old events out.new) }
{
    for place in 0..sessions.len() {
        out.turn_to(place as u8 + 1);
        let session = &mut sessions[place];
        session.exit(shared, out);
        session.beside();
    }
}

/// Ends sessions as they opened, without a word.
pub fn end_unheard<H: ResetHook, X: ExtKind>(
    sessions: &mut [Session<H>],
    shared: &mut Shared<'_, H, X>,
)
    requires opening { IsOpening (run_of sessions.old shared.old) }
    requires standing { AreStanding 0 (run_of sessions.old shared.old) }
    requires few { length sessions.old ≤ 64 }
    ensures shelf { shared.new.shelf.now ≡ shared.old.shelf.now }
    ensures kinds { shared.new.commons.now.kinds ≡ shared.old.commons.now.kinds }
    ensures given_back { (account : ℕ) → account < length sessions.old → held shared.new.space.now account ≡ 0 }
    ensures others { (account : ℕ) → length sessions.old ≤ account → held shared.new.space.now account ≡ held shared.old.space.now account }
    ensures accounts { accounts shared.new.space.now ≡ accounts shared.old.space.now }
{
    exit_all(sessions, shared, &mut Unheard);
}
