//! Counts the events of sessions.
ghost use Rattle.std.specs.Prelude.{◌≡◌, ◌+◌, ◌-◌, ◌^◌, min, if◌then◌else◌};
ghost use Rattle.session_rules.specs.Transcript.{is_error};

use crate::Transcript;
use pgs_step::{Emit, What};

/// Counts the events that it takes, and the ERROR events among them. A count stays at 2^64 - 1 once it would pass it.
#[derive(Clone, Copy)]
pub(crate) struct Counter {
    events: u64,
    errors: u64,
}

impl Counter {
    /// A counter that has counted nothing.
    pub(crate) fn new() -> Counter
        ensures { result ≡ record { events = 0; errors = 0 } }
    {
        Counter {
            events: 0,
            errors: 0,
        }
    }

    /// How many events were counted, and how many of them were ERROR events.
    pub(crate) fn counts(&self) -> (u64, u64)
        ensures events { result.0 ≡ self.now.events }
        ensures errors { result.1 ≡ self.now.errors }
    {
        (self.events, self.errors)
    }
}

impl Emit for Counter {
    ghost use Rattle.pgs_turns.specs.Counting.{TakesWhats, TakesWhats-none, TakesWhats-more};

    ghost emits = { TakesWhats };

    fn emit(&mut self, what: What) {
        self.events = self.events.saturating_add(1);
        self.errors = self.errors.saturating_add(is_error(&what) as u64);
    }

    ghost emits_none = { TakesWhats-none };

    ghost emits_more = { TakesWhats-more };
}

impl Transcript for Counter {
    ghost use Rattle.pgs_turns.specs.Counting.{TakesEvents, TakesEvents-none, TakesEvents-both};

    ghost shows = { TakesEvents };

    fn turn_to(&mut self, _session: u8) {}

    ghost shows_none = { TakesEvents-none };

    ghost shows_both = { TakesEvents-both };
}

fn is_error(what: &What) -> bool
    ensures { result ≡ is_error what.now }
{
    matches!(what, What::Error(_))
}
