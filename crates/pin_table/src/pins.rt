//! What one session pins.
ghost use Rattle.std.specs.Prelude.{◌≡◌, ◌≢◌, ◌↔◌, ◌<◌, ◌≤◌, ◌+◌, ◌-◌, ◌^◌, ℕ, List, [], length, IsOk, IsErrOf, IsOkUnless, OnOk, OnErr};
ghost use Rattle.std.specs.Ordering.{nat_cmp, eq_by_cmp};
ghost use Rattle.std.specs.Set.{distinct_count};
ghost use Rattle.counts.specs.Counts.{total, AreCounts, Tallies};
ghost use Rattle.pin_table.specs.Pins.{pins_of, sessions_of, AreShared, PinsOneMore, PinsOneLess};

use crate::private::PrivateCounts;
use crate::shared::{BUFFERS, SharedPins};
use std::alloc::{AllocError, Global};
use std::marker::Model;
use thiserror::Error;

/// Why a pin was not taken or not given back.
#[derive(Clone, Copy, Debug, PartialEq, Eq, Error)]
pub enum PinError {
    /// There is no buffer of that number.
    #[error("no such buffer")]
    NoBuffer,
    /// The session doesn't pin the buffer.
    #[error("the buffer is not pinned")]
    NotPinned,
    /// Memory was refused.
    #[error("no memory")]
    Memory,
}

impl From<AllocError> for PinError {
    ghost use Rattle.pin_table.specs.declared.pins.PinError.TheVariants.{Memory};
    ghost use Rattle.std.specs.Prelude.{◌≡◌};

    ghost from_gives = { λ _ e. e ≡ Memory };

    fn from(_refused: AllocError) -> PinError {
        PinError::Memory
    }
}

/// How often one session pins each buffer: PostgreSQL's private reference counts.
///
/// Contracts see the list of the buffers that the session pins, each with its count, in their order.
#[derive(Drop)]
pub struct PinTable {
    pins: PrivateCounts,
}

impl Model for PinTable {
    ghost use Rattle.std.specs.Prelude.{ℕ, List};

    ghost Value = { List (ℕ × ℕ) };

    ghost view = { λ t. t.pins };
}

impl PinTable {
    /// No buffer is pinned.
    pub fn new(alloc: Global) -> PinTable
        ensures { result ≡ [] }
    {
        PinTable {
            pins: PrivateCounts::new(alloc),
        }
    }

    /// Pins a buffer once more. The session's first pin of it raises the shared count.
    ///
    /// `NoBuffer` comes for a number of 1,024 or more, `Memory` where memory was refused.
    pub fn pin(&mut self, shared: &mut SharedPins, buffer: u32) -> Result<(), PinError>
        requires shared { AreShared self.old shared.old }
        requires room { total self.old < 2 ^ 62 }
        requires sessions { buffer < BUFFERS → sessions_of shared.old buffer < 2 ^ 32 - 1 }
        ensures no_buffer { IsErrOf result PinError.NoBuffer ↔ (BUFFERS ≤ buffer) }
        ensures wanted { buffer < BUFFERS → IsOkUnless result PinError.Memory }
        ensures pinned { OnOk result (pins_of self.new buffer ≡ pins_of self.old buffer + 1) }
        ensures others { OnOk result ((q : ℕ) → q ≢ buffer → pins_of self.new q ≡ pins_of self.old q) }
        ensures counts { OnOk result (PinsOneMore self.old self.new buffer) }
        ensures total { OnOk result (total self.new ≡ total self.old + 1) }
        ensures first { OnOk result (pins_of self.old buffer ≡ 0 → sessions_of shared.new buffer ≡ sessions_of shared.old buffer + 1) }
        ensures again { OnOk result (1 ≤ pins_of self.old buffer → shared.new ≡ shared.old) }
        ensures other_buffers { (q : ℕ) → q ≢ buffer → sessions_of shared.new q ≡ sessions_of shared.old q }
        ensures refused { OnErr result (self.new ≡ self.old) }
        ensures not_shared { OnErr result (shared.new ≡ shared.old) }
        ensures stays_shared { AreShared self.new shared.new }
    {
        if buffer >= BUFFERS {
            return Err(PinError::NoBuffer);
        }
        let before = self.pins.count(buffer);
        self.pins.raise(buffer)?;
        if before == 0 {
            shared.raise(buffer);
        }
        Ok(())
    }

    /// Gives one pin of the buffer back. The session's last one lowers the shared count.
    ///
    /// `NotPinned` comes exactly where the session doesn't pin the buffer.
    pub fn unpin(&mut self, shared: &mut SharedPins, buffer: u32) -> Result<(), PinError>
        requires shared { AreShared self.old shared.old }
        ensures not_pinned { IsErrOf result PinError.NotPinned ↔ (pins_of self.old buffer ≡ 0) }
        ensures pinned { 1 ≤ pins_of self.old buffer → IsOk result }
        ensures unpinned { OnOk result (pins_of self.new buffer + 1 ≡ pins_of self.old buffer) }
        ensures others { OnOk result ((q : ℕ) → q ≢ buffer → pins_of self.new q ≡ pins_of self.old q) }
        ensures counts { OnOk result (PinsOneLess self.old self.new buffer) }
        ensures total { OnOk result (total self.new + 1 ≡ total self.old) }
        ensures last { OnOk result (pins_of self.old buffer ≡ 1 → sessions_of shared.new buffer + 1 ≡ sessions_of shared.old buffer) }
        ensures still { OnOk result (2 ≤ pins_of self.old buffer → shared.new ≡ shared.old) }
        ensures other_buffers { (q : ℕ) → q ≢ buffer → sessions_of shared.new q ≡ sessions_of shared.old q }
        ensures refused { OnErr result (self.new ≡ self.old) }
        ensures not_shared { OnErr result (shared.new ≡ shared.old) }
        ensures stays_shared { AreShared self.new shared.new }
    {
        match self.pins.lower(buffer) {
            None => Err(PinError::NotPinned),
            Some(0) => {
                shared.lower(buffer);
                Ok(())
            }
            Some(_) => Ok(()),
        }
    }

    /// Facts of every table, for proofs. It does nothing.
    pub fn laws(&self)
        ensures counts { AreCounts nat_cmp self.now }
        // of any list in which each buffer stands as often as it is pinned, the number of different ones
        ensures different { (buffers : List ℕ) → Tallies nat_cmp buffers self.now → length self.now ≡ distinct_count (eq_by_cmp nat_cmp) buffers }
    {
        self.pins.laws();
    }

    /// How many different buffers the session pins.
    pub fn distinct(&self) -> u64
        ensures entries { result ≡ length self.now }
        ensures counts { AreCounts nat_cmp self.now }
        // of any list in which each buffer stands as often as it is pinned, the number of different ones
        ensures different { (buffers : List ℕ) → Tallies nat_cmp buffers self.now → result ≡ distinct_count (eq_by_cmp nat_cmp) buffers }
    {
        self.pins.laws();
        self.pins.distinct()
    }
}
