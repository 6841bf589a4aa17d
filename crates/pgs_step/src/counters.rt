//! What reports count.
ghost use Rattle.std.specs.Prelude.{◌≡◌, ◌≤◌, min};

use std::marker::Model;

/// The most levels below the topmost context that a report shows by spaces.
pub const DEEPEST: u8 = 100;

/// How deep below the topmost context a line of a report stands: at most 100 levels.
///
/// Contracts see the number.
#[derive(Clone, Copy, Debug, PartialEq, Eq)]
pub struct Depth {
    levels: u8,
}

impl Model for Depth {
    ghost use Rattle.std.specs.Prelude.{ℕ, ◌≤◌, refl};

    ghost Value = { ℕ };

    ghost view = { λ d. d.levels };

    ghost invariant = { λ d. d.levels ≤ 100 };

    ghost inverse = { λ n. record { levels = n } };

    ghost inverse_ok = { λ a h. refl };
}

impl Depth {
    /// This many levels, or 100 where there are more.
    pub fn new(levels: u32) -> Depth
        ensures { result ≡ min levels 100 }
    {
        Depth {
            levels: levels.min(DEEPEST as u32) as u8,
        }
    }

    /// How many levels.
    pub fn levels(self) -> u8
        ensures value { result ≡ self }
        ensures few { result ≤ 100 }
    {
        self.levels
    }
}

/// What a context has, or several together: PostgreSQL's `MemoryContextCounters`.
#[derive(Clone, Copy, Debug, PartialEq, Eq)]
pub struct MemoryCounters {
    /// The bytes of all blocks.
    pub total: u64,
    /// How many blocks.
    pub blocks: u64,
    /// The bytes that are free in blocks.
    pub free: u64,
    /// How many free chunks.
    pub chunks: u64,
}

/// What a session holds, as the command `stat` shows it.
#[derive(Clone, Copy, Debug, PartialEq, Eq)]
pub struct SessionCounts {
    /// Different buffers that it pins.
    pub pins: u64,
    /// Files that it has open.
    pub files: u64,
    /// Files of these that have an operating system's descriptor.
    pub descriptors: u64,
    /// Different pairs of object and mode that it holds.
    pub locks: u64,
    /// Different snapshots that are registered or on the stack.
    pub snapshots: u64,
    /// Plans.
    pub plans: u64,
    /// Different pairs of class and key that it references.
    pub refs: u64,
    /// Owners.
    pub owners: u64,
    /// Contexts.
    pub contexts: u64,
}
