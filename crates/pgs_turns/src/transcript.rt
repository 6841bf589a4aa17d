//! What it is to take the events of several sessions.
ghost use Rattle.std.specs.Prelude.{List, [], ◌++◌};
ghost use Rattle.pgs_step.specs.declared.events.Event.{Event};
ghost use Rattle.pgs_step.specs.declared.events.What.{What};
ghost use Rattle.session_rules.specs.Transcript.{of_session};

use pgs_step::{Emit, What};

/// Takes the events of the sessions of a run, of one session at a time.
///
/// Its one meaning is the relation `shows`: from a value, by these events in order, each with its session, to a later value.
pub trait Transcript: Emit {
    ghost shows: { Self → List Event → Self → Type 0 };

    /// From now on the events that are emitted are those of this session.
    fn turn_to(&mut self, session: u8)
        ensures turned { (events : List What) (behind : Self) → Self.emits self.new events behind → shows self.old (of_session session events) behind };

    /// With no event, nothing happened.
    ghost shows_none: { (a : Self) → shows a [] a };

    /// Events that follow one another are one list of events.
    ghost shows_both: { (a b c : Self) (xs ys : List Event) → shows a xs b → shows b ys c → shows a (xs ++ ys) c };
}

/// Takes events and keeps nothing of them.
#[derive(Drop)]
pub(crate) struct Unheard;

impl Emit for Unheard {
    ghost emits = { λ a events b. Unit {0} };

    fn emit(&mut self, _what: What) {}

    ghost emits_none = { λ a. tt };

    ghost emits_more = { λ a b c xs ys both p q e. tt };
}

impl Transcript for Unheard {
    ghost shows = { λ a events b. Unit {0} };

    fn turn_to(&mut self, _session: u8) {}

    ghost shows_none = { λ a. tt };

    ghost shows_both = { λ a b c xs ys p q. tt };
}
