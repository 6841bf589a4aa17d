//! An emitter that keeps what it is given, for tests.
ghost use Rattle.std.specs.Prelude.{◌≡◌, ◌<◌, ◌≤◌, ◌+◌, ◌-◌, ◌^◌, min, length, [], ◌∷◌, ◌++◌, IfOk};
ghost use Rattle.pgs_step.specs.EventList.{Kept};

use crate::emitter::Emit;
use crate::events::What;
use std::alloc::{AllocError, Global};
use std::marker::Model;

/// Keeps up to `room` events, and counts those that came when it was full.
///
/// Its room is taken when it is made, so that `emit` takes no memory. The count of missed events stays at
/// 2^64 - 1 once it would pass it.
#[derive(Drop)]
pub struct EventList {
    events: Vec<What>,
    room: u32,
    missed: u64,
}

impl Model for EventList {
    ghost use Rattle.std.specs.Prelude.{ℕ, ◌≤◌};
    ghost use Rattle.std.specs.Vec.{vec_capacity, vec_len};
    ghost use Rattle.pgs_step.specs.EventList.{Kept};

    ghost Value = { Kept };

    ghost view = { λ l. record { events = l.events.items; room = l.room; missed = l.missed } };

    ghost invariant = { λ l. (vec_len l.events ≤ l.room) × (l.room ≤ vec_capacity l.events) };
}

impl EventList {
    /// A list with room for `room` events. It fails for want of memory alone.
    pub fn new(alloc: Global, room: u32) -> Result<EventList, AllocError>
        ensures made { IfOk result (λ list. list ≡ record { events = []; room = room; missed = 0 }) }
    {
        Ok(EventList {
            events: Vec::with_capacity(alloc, room as usize)?,
            room,
            missed: 0,
        })
    }

    /// The events that were kept, in the order in which they came.
    pub fn events(&self) -> &[What]
        ensures { result.now ≡ self.now.events }
    {
        self.events.as_slice()
    }

    /// How many events were not kept.
    pub fn missed(&self) -> u64
        ensures { result ≡ self.now.missed }
    {
        self.missed
    }
}

impl Emit for EventList {
    ghost use Rattle.pgs_step.specs.EventList.{KeepsMore, KeepsMore-none, KeepsMore-more};

    ghost emits = { KeepsMore };

    fn emit(&mut self, what: What)
        ensures emitted { KeepsMore self.old (what ∷ []) self.new }
        ensures kept { length self.old.events < self.old.room → self.new ≡ record self.old { events = self.old.events ++ what ∷ [] } }
        ensures missed { self.old.room ≤ length self.old.events → self.new ≡ record self.old { missed = min (self.old.missed + 1) (2 ^ 64 - 1) } }
    {
        if self.events.len() < self.room as usize {
            let _ = self.events.push(what);
        } else {
            self.missed = self.missed.saturating_add(1);
        }
    }

    ghost emits_none = { KeepsMore-none };

    ghost emits_more = { KeepsMore-more };
}
