//! How often a session pins each buffer.
ghost use Rattle.std.specs.Prelude.{◌≡◌, ◌<◌, ◌≤◌, ◌+◌, ◌-◌, ◌^◌, ◌==◌, ℕ, List, [], length, position, MatchOption, IfNone, OnSome, OnOk, OnErr};
ghost use Rattle.std.specs.Ordering.{nat_cmp, eq_by_cmp};
ghost use Rattle.std.specs.Set.{distinct_count};
ghost use Rattle.std.specs.BTreeMap.{is_at};
ghost use Rattle.std.specs.Map.{lookup, set_value, remove_entry};
ghost use Rattle.counts.specs.Counts.{total, AreCounts, Tallies};
ghost use Rattle.pin_table.specs.Pins.{pins_of, PinsOneMore, PinsOneLess};

use arrayvec::ArrayVec;
use counts::Counts;
use std::alloc::{AllocError, Global};
use std::marker::Model;

/// How many buffers have their counts in the array: PostgreSQL's `REFCOUNT_ARRAY_ENTRIES`.
pub const REFCOUNT_ARRAY_ENTRIES: usize = 8;

/// The private counts of a session's buffers: PostgreSQL's `PrivateRefCountArray` and `PrivateRefCountHash`.
///
/// Up to 8 buffers have their counts in an array, and those pinned while it is full in a table. None moves
/// from one to the other. Contracts see all of them in the order of the buffers, each with its count.
#[derive(Drop)]
pub struct PrivateCounts {
    few: ArrayVec<(u32, u64), REFCOUNT_ARRAY_ENTRIES>,
    rest: Counts<u32>,
}

impl Model for PrivateCounts {
    ghost use Rattle.std.specs.Prelude.{ℕ, List};
    ghost use Rattle.pin_table.specs.Parts.{merged, AreParts};

    ghost Value = { List (ℕ × ℕ) };

    ghost view = { λ t. merged t.few.items t.rest };

    ghost invariant = { λ t. AreParts t.few.items t.rest };
}

impl PrivateCounts {
    /// No buffer is pinned.
    pub fn new(alloc: Global) -> PrivateCounts
        ensures { result ≡ [] }
    {
        let rest = Counts::new(alloc);
        rest.laws();
        PrivateCounts {
            few: ArrayVec::new(),
            rest,
        }
    }

    /// How often a buffer is pinned.
    pub fn count(&self, buffer: u32) -> u64
        ensures count { result ≡ pins_of self.now buffer }
        ensures within { result ≤ total self.now }
    {
        match count_among(self.few.as_slice(), buffer) {
            Some(count) => count,
            None => self.rest.count(buffer),
        }
    }

    /// Counts a buffer once more. A new one takes a free place of the array, else one of the table.
    ///
    /// It fails for want of memory alone, which only the table takes.
    pub fn raise(&mut self, buffer: u32) -> Result<(), AllocError>
        requires room { total self.old < 2 ^ 62 }
        ensures counts { OnOk result (PinsOneMore self.old self.new buffer) }
        ensures total { OnOk result (total self.new ≡ total self.old + 1) }
        ensures refused { OnErr result (self.new ≡ self.old) }
    {
        if let Some(count) = count_among(self.few.as_slice(), buffer) {
            write_count(&mut self.few, buffer, count + 1);
            return Ok(());
        }
        if self.rest.count(buffer) == 0 {
            if !self.few.is_full() {
                self.few.push((buffer, 1));
                return Ok(());
            }
        }
        self.rest.raise(buffer)?;
        self.rest.laws();
        Ok(())
    }

    /// Counts a buffer once less, and answers how often it is still pinned; `None` exactly where it wasn't.
    pub fn lower(&mut self, buffer: u32) -> Option<u64>
        ensures left { MatchOption result (pins_of self.old buffer ≡ 0) (λ left. pins_of self.old buffer ≡ left + 1) }
        ensures counts { OnSome result (PinsOneLess self.old self.new buffer) }
        ensures total { OnSome result (total self.new + 1 ≡ total self.old) }
        ensures none { IfNone result (self.new ≡ self.old) }
    {
        let Some(count) = count_among(self.few.as_slice(), buffer) else {
            let left = self.rest.lower(buffer)?;
            self.rest.laws();
            return Some(left);
        };
        if count == 1 {
            free_place(&mut self.few, buffer);
            return Some(0);
        }
        write_count(&mut self.few, buffer, count - 1);
        Some(count - 1)
    }

    /// Facts of every value, for proofs. It does nothing.
    pub fn laws(&self)
        ensures counts { AreCounts nat_cmp self.now }
        // of any list in which each buffer stands as often as it is pinned, the number of different ones
        ensures different { (buffers : List ℕ) → Tallies nat_cmp buffers self.now → length self.now ≡ distinct_count (eq_by_cmp nat_cmp) buffers }
    {
        let _ = self.few.len();
    }

    /// How many different buffers are pinned.
    pub fn distinct(&self) -> u64
        ensures entries { result ≡ length self.now }
    {
        self.few.len() as u64 + self.rest.distinct()
    }
}

/// Where the entry of a buffer stands in the array.
fn place_of(few: &[(u32, u64)], buffer: u32) -> Option<usize>
    ensures { result ≡ position (λ entry. entry.0 == buffer) few.now }
{
    few.iter().position(|entry| entry.0 == buffer)
}

/// The count of a buffer in the array.
fn count_among(few: &[(u32, u64)], buffer: u32) -> Option<u64>
    ensures { result ≡ lookup (is_at (nat_cmp buffer)) few.now }
{
    match place_of(few, buffer) {
        Some(at) => Some(few[at].1),
        None => None,
    }
}

/// Writes the count of a buffer in the array.
fn write_count(few: &mut ArrayVec<(u32, u64), REFCOUNT_ARRAY_ENTRIES>, buffer: u32, count: u64)
    ensures { few.new.items ≡ set_value (is_at (nat_cmp buffer)) few.old.items count }
{
    if let Some(at) = place_of(few.as_slice(), buffer) {
        if let Some(entry) = few.get_mut(at) {
            entry.1 = count;
        }
    }
}

/// Frees the place of a buffer in the array.
fn free_place(few: &mut ArrayVec<(u32, u64), REFCOUNT_ARRAY_ENTRIES>, buffer: u32)
    ensures { few.new.items ≡ remove_entry (is_at (nat_cmp buffer)) few.old.items }
{
    if let Some(at) = place_of(few.as_slice(), buffer) {
        few.remove(at);
    }
}
