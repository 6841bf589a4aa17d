//! The snapshots of a session.
ghost use Rattle.std.specs.Prelude.{◌≡◌, ◌≢◌, ◌↔◌, ◌<◌, ◌≤◌, ◌+◌, ◌-◌, ◌^◌, ℕ, true, false, List, [], ◌∷◌, ◌++◌, length, take, map, filter, reverse, count_by, IsOk, IsErr, IsErrOf, OnOk, OnErr, IfOk};
ghost use Rattle.std.specs.Ordering.{nat_cmp, eq_by_cmp};
ghost use Rattle.std.specs.BTreeMap.{is_at};
ghost use Rattle.std.specs.List.{list_all};
ghost use Rattle.std.specs.Set.{distinct_count};
ghost use Rattle.counts.specs.Counts.{count_of, total, AreCounts, Tallies};
ghost use Rattle.snap_table.specs.declared.active.Active.{Active};
ghost use Rattle.snap_table.specs.Snapshots.{Snapshots, registrations, RegisteredOneMore, RegisteredOneLess, size, snapshots_of, is_deep, kept_below, pops, lowered, IsRising, AreBelow};

use crate::active::{Active, SnapError};
use counts::Counts;
use pgs_step::{Emit, What};
use std::alloc::{AllocError, Global};
use std::marker::Model;

/// The snapshots that a session has registered, and its stack of active snapshots, as in PostgreSQL's snapshot
/// manager.
///
/// Contracts see the registered snapshots in their order, each with its count, and the stack with its newest
/// entry last.
#[derive(Drop)]
pub struct SnapTable {
    registered: Counts<u32>,
    stack: Vec<Active>,
    /// Whether the stack is known to rise, as it does in PostgreSQL: the entries of a level are then on top, and no
    /// other is looked at when they are lowered or dropped.
    rising: bool,
    /// Registrations and entries of the stack together.
    held: Counts<u32>,
}

impl Model for SnapTable {
    ghost use Rattle.std.specs.Prelude.{◌≡◌, true};
    ghost use Rattle.snap_table.specs.Snapshots.{Snapshots, CountsBoth, IsRising};

    ghost Value = { Snapshots };

    ghost view = { λ t. record { registered = t.registered; stack = t.stack.items } };

    ghost invariant = { λ t. CountsBoth t.held t.registered t.stack.items × (t.rising ≡ true → IsRising t.stack.items) };
}

impl SnapTable {
    /// No snapshot is registered, and the stack is empty.
    pub fn new(alloc: Global) -> SnapTable
        ensures { result ≡ record { registered = []; stack = [] } }
    {
        SnapTable {
            registered: Counts::new(alloc),
            stack: Vec::new(alloc),
            rising: true,
            held: Counts::new(alloc),
        }
    }

    /// Registers a snapshot once more. It fails for want of memory alone.
    pub fn register(&mut self, snapshot: u32) -> Result<(), AllocError>
        ensures registered { OnOk result (registrations self.new snapshot ≡ registrations self.old snapshot + 1) }
        ensures others { OnOk result ((q : ℕ) → q ≢ snapshot → registrations self.new q ≡ registrations self.old q) }
        ensures counts { OnOk result (RegisteredOneMore self.old self.new snapshot) }
        ensures size { OnOk result (size self.new ≡ size self.old + 1) }
        ensures stack { self.new.stack ≡ self.old.stack }
        ensures refused { OnErr result (self.new ≡ self.old) }
    {
        hold(&mut self.held, snapshot)?;
        if let Err(refused) = self.registered.raise(snapshot) {
            let _ = self.held.lower(snapshot);
            return Err(refused);
        }
        Ok(())
    }

    /// Takes a registration of a snapshot back. `NotHeld` comes exactly where it isn't registered.
    pub fn unregister(&mut self, snapshot: u32) -> Result<(), SnapError>
        ensures not_held { IsErr result ↔ (registrations self.old snapshot ≡ 0) }
        ensures unregistered { OnOk result (registrations self.new snapshot + 1 ≡ registrations self.old snapshot) }
        ensures others { OnOk result ((q : ℕ) → q ≢ snapshot → registrations self.new q ≡ registrations self.old q) }
        ensures counts { OnOk result (RegisteredOneLess self.old self.new snapshot) }
        ensures size { OnOk result (size self.new + 1 ≡ size self.old) }
        ensures stack { self.new.stack ≡ self.old.stack }
        ensures refused { OnErr result (self.new ≡ self.old) }
    {
        if self.registered.lower(snapshot).is_none() {
            return Err(SnapError::NotHeld);
        }
        let _ = self.held.lower(snapshot);
        Ok(())
    }

    /// Puts a snapshot of a level on the stack, and emits that. It fails for want of memory alone, and emits
    /// nothing then.
    pub fn push<E: Emit>(
        &mut self,
        snapshot: u32,
        level: u32,
        out: &mut E,
    ) -> Result<(), AllocError>
        ensures pushed { OnOk result (self.new ≡ record self.old { stack = self.old.stack ++ record { snapshot = snapshot; level = level } ∷ [] }) }
        ensures emitted { OnOk result (E.emits out.old (What.Push snapshot ∷ []) out.new) }
        ensures refused { OnErr result (self.new ≡ self.old) }
        ensures silent { OnErr result (out.new ≡ out.old) }
    {
        self.stack.reserve(1)?;
        hold(&mut self.held, snapshot)?;
        self.rising = stays_rising(self.stack.as_slice(), self.rising, level);
        let _ = self.stack.push(Active { snapshot, level });
        out.emit(What::Push(snapshot));
        Ok(())
    }

    /// Takes the newest entry, which is of that level, off the stack, and emits that.
    ///
    /// `NotHeld` comes exactly where the stack is empty or its newest entry isn't of that level. Nothing is
    /// emitted then.
    pub fn pop<E: Emit>(&mut self, level: u32, out: &mut E) -> Result<(), SnapError>
        ensures held { IsOk result ↔ ((rest : List Active) × (snapshot : ℕ) × (self.old.stack ≡ rest ++ record { snapshot = snapshot; level = level } ∷ [])) }
        ensures popped { OnOk result ((snapshot : ℕ) × (self.old.stack ≡ self.new.stack ++ record { snapshot = snapshot; level = level } ∷ []) × E.emits out.old (What.Pop snapshot ∷ []) out.new) }
        ensures registered { self.new.registered ≡ self.old.registered }
        ensures refused { OnErr result (self.new ≡ self.old) }
        ensures silent { OnErr result (out.new ≡ out.old) }
    {
        let Some(newest) = self.stack.last().copied() else {
            return Err(SnapError::NotHeld);
        };
        if newest.level != level {
            return Err(SnapError::NotHeld);
        }
        let _ = self.stack.pop();
        let _ = self.held.lower(newest.snapshot);
        out.emit(What::Pop(newest.snapshot));
        Ok(())
    }

    /// Takes each entry of that level or of a greater one off the stack, the newest first, and emits that. It is
    /// what an abort of the level does.
    #[inline]
    pub fn sub_abort<E: Emit>(&mut self, level: u32, out: &mut E)
        ensures kept { self.new ≡ record self.old { stack = kept_below level self.old.stack } }
        ensures emitted { E.emits out.old (pops level (reverse self.old.stack)) out.new }
    {
        if self.stack.is_empty() {
            return;
        }
        self.pop_deep(level, out);
    }

    /// The same, where the stack isn't empty. Most levels end without a snapshot.
    #[inline(never)]
    fn pop_deep<E: Emit>(&mut self, level: u32, out: &mut E)
        ensures kept { self.new ≡ record self.old { stack = kept_below level self.old.stack } }
        ensures emitted { E.emits out.old (pops level (reverse self.old.stack)) out.new }
    {
        let from = lowest_of(self.stack.as_slice(), self.rising, level);
        emit_pops(&self.stack[from..], level, out);
        lower_deep(&mut self.held, &self.stack[from..], level);
        keep_below(&mut self.stack, from, level);
    }

    /// Lowers each entry of that level, which is at least 1, to the level below. It is what a commit of the level
    /// does.
    #[inline]
    pub fn sub_commit(&mut self, level: u32)
        requires { 1 ≤ level }
        ensures { self.new ≡ record self.old { stack = map (lowered level) self.old.stack } }
    {
        if self.stack.is_empty() {
            return;
        }
        self.lower_deepest(level);
    }

    /// The same, where the stack isn't empty.
    #[inline(never)]
    fn lower_deepest(&mut self, level: u32)
        requires { 1 ≤ level }
        ensures { self.new ≡ record self.old { stack = map (lowered level) self.old.stack } }
    {
        let from = lowest_of(self.stack.as_slice(), self.rising, level);
        lower_level(&mut self.stack, from, level);
    }

    /// Facts of every table, for proofs. It does nothing.
    pub fn laws(&self)
        ensures counts { AreCounts nat_cmp self.now.registered }
        // of any list in which each snapshot stands as often as it is registered, the number of different ones
        ensures different { (taken : List ℕ) → Tallies nat_cmp taken self.now.registered → length self.now.registered ≡ distinct_count (eq_by_cmp nat_cmp) taken }
    {
        self.registered.laws();
    }

    /// How many different snapshots are registered or on the stack.
    pub fn distinct(&self) -> u64
        // by any list in which each snapshot stands as often as it is registered
        ensures { (taken : List ℕ) → Tallies nat_cmp taken self.now.registered → result ≡ distinct_count (eq_by_cmp nat_cmp) (taken ++ snapshots_of self.now.stack) }
    {
        self.held.distinct()
    }
}

/// Counts a snapshot once more. It fails for want of memory alone: there is none for 2^64 of one snapshot.
fn hold(held: &mut Counts<u32>, snapshot: u32) -> Result<(), AllocError>
    ensures room { OnOk result (count_of nat_cmp held.old snapshot < 2 ^ 64 - 1) }
    ensures counted { OnOk result (count_of nat_cmp held.new snapshot ≡ count_of nat_cmp held.old snapshot + 1) }
    ensures others { OnOk result ((q : ℕ) → is_at (nat_cmp snapshot) q ≡ false → count_of nat_cmp held.new q ≡ count_of nat_cmp held.old q) }
    ensures refused { OnErr result (held.new ≡ held.old) }
{
    if held.count(snapshot) == u64::MAX {
        return Err(AllocError);
    }
    held.raise(snapshot)
}

/// Emits the pops of the entries of that level or of a greater one, the last entry first.
fn emit_pops<E: Emit>(stack: &[Active], level: u32, out: &mut E)
    ensures { E.emits out.old (pops level (reverse stack.now)) out.new }
{
    for entry in stack.iter().rev() {
        if entry.level >= level {
            out.emit(What::Pop(entry.snapshot));
        }
    }
}

/// Lowers the count of a snapshot once for each entry with it that is of that level or of a greater one.
fn lower_deep(held: &mut Counts<u32>, stack: &[Active], level: u32)
    ensures { (q : ℕ) → count_of nat_cmp held.new q ≡ count_of nat_cmp held.old q - count_by (is_at (nat_cmp q)) (snapshots_of (filter (is_deep level) stack.now)) }
{
    for entry in stack {
        if entry.level >= level {
            let _ = held.lower(entry.snapshot);
        }
    }
}

/// Whether a stack is known to rise with one more entry of that level on it.
fn stays_rising(stack: &[Active], rising: bool, level: u32) -> bool
    requires { rising ≡ true → IsRising stack.now }
    ensures { (snapshot : ℕ) → result ≡ true → IsRising (stack.now ++ record { snapshot = snapshot; level = level } ∷ []) }
{
    match stack.last() {
        Some(newest) => rising && newest.level <= level,
        None => true,
    }
}

/// How many entries at the bottom are of lower levels, and need not be looked at.
fn lowest_of(stack: &[Active], rising: bool, level: u32) -> usize
    requires { rising ≡ true → IsRising stack.now }
    ensures within { result ≤ length stack.now }
    ensures below { AreBelow level (take result stack.now) }
{
    if !rising {
        return 0;
    }
    for at in (0..stack.len()).rev() {
        if stack[at].level < level {
            return at + 1;
        }
    }
    0
}

/// Leaves the entries of lower levels, of which there are that many at the bottom. Those are not looked at where no
/// other is left.
fn keep_below(stack: &mut Vec<Active>, from: usize, level: u32)
    requires within { from ≤ length stack.old.items }
    requires below { AreBelow level (take from stack.old.items) }
    ensures { stack.new.items ≡ kept_below level stack.old.items }
{
    if are_deep(&stack[from..], level) {
        stack.truncate(from);
    } else {
        stack.retain(|entry| entry.level < level);
    }
}

/// Whether all entries are of that level or of a greater one.
fn are_deep(stack: &[Active], level: u32) -> bool
    ensures { result ≡ list_all (is_deep level) stack.now }
{
    stack.iter().all(|entry| entry.level >= level)
}

/// Lowers each entry of that level by one. The entries at the bottom, of that number, are of lower levels.
fn lower_level(stack: &mut Vec<Active>, from: usize, level: u32)
    requires low { 1 ≤ level }
    requires below { AreBelow level (take from stack.old.items) }
    ensures { stack.new.items ≡ map (lowered level) stack.old.items }
{
    for at in from..stack.len() {
        stack[at] = one_lower(stack[at], level);
    }
}

fn one_lower(entry: Active, level: u32) -> Active
    requires { 1 ≤ level }
    ensures { result ≡ lowered level entry }
{
    if entry.level == level {
        Active {
            level: level - 1,
            ..entry
        }
    } else {
        entry
    }
}
