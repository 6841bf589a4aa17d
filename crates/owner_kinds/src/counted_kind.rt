ghost use Rattle.std.specs.Prelude.{◌≡◌, ◌≢◌, ◌≤◌, ◌==◌, ◌↔◌, [], IsTrue, position};
ghost use Rattle.owner_kinds.specs.Kind.{IsFull};

use crate::ext_kind::{ExtKind, KindError};
use pgs_step::{Name, Phase};
use std::alloc::Global;
use std::marker::Model;

/// A kind of resource that is no more than a list of keys: it gives out up to `limit` of them.
#[derive(Drop)]
pub struct CountedKind {
    name: Name,
    phase: Phase,
    priority: u32,
    limit: u32,
    keys: Vec<u32>,
}

impl Model for CountedKind {
    ghost use Rattle.std.specs.Prelude.{◌≢◌, ◌≤◌};
    ghost use Rattle.pgs_step.specs.declared.ids.Phase.TheVariants.{Locks};
    ghost use Rattle.owner_kinds.specs.Kind.{Kind, keys_in_order};

    ghost Value = { Kind };

    ghost view = { λ k. record {
      name = k.name;
      phase = k.phase;
      priority = k.priority;
      limit = k.limit;
      held = keys_in_order k.keys.items;
    } };

    ghost invariant = { λ k. record {
      not_locks : k.phase ≢ Locks;
      least : 1 ≤ k.priority;
      greatest : k.priority ≤ 1000000;
    } };
}

impl CountedKind {
    /// A kind that holds no key yet.
    pub fn new(alloc: Global, name: Name, phase: Phase, priority: u32, limit: u32) -> CountedKind
        requires not_locks { phase ≢ Phase.Locks }
        requires least { 1 ≤ priority }
        requires greatest { priority ≤ 1000000 }
        ensures { result ≡ record { name = name; phase = phase; priority = priority; limit = limit; held = [] } }
    {
        CountedKind {
            name,
            phase,
            priority,
            limit,
            keys: Vec::new(alloc),
        }
    }

    /// Whether it holds as many keys as it may, so that `open` answers `Full`.
    pub fn is_full(&self) -> bool
        ensures { IsTrue result ↔ IsFull self.now }
    {
        self.keys.len() >= self.limit as usize
    }
}

impl ExtKind for CountedKind {
    ghost kind_meaning = { λ kind. kind };

    fn name(&self) -> Name {
        self.name
    }

    fn phase(&self) -> Phase {
        self.phase
    }

    fn priority(&self) -> u32 {
        self.priority
    }

    fn open(&mut self, key: u32) -> Result<(), KindError> {
        if self.is_full() {
            return Err(KindError::Full);
        }
        if self.keys.push(key).is_err() {
            return Err(KindError::Memory);
        }
        Ok(())
    }

    fn close(&mut self, key: u32) {
        if let Some(place) = place_of(&self.keys, key) {
            self.keys.remove(place);
        }
    }
}

// The first place at which the key stands.
fn place_of(keys: &[u32], key: u32) -> Option<usize>
    ensures { result ≡ position (λ held. held == key) keys.now }
{
    keys.iter().position(|held| *held == key)
}
