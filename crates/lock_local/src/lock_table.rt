//! The locks of one session.
ghost use Rattle.std.specs.Prelude.{◌≡◌, true, ◌↔◌, ◌<◌, ◌+◌, ◌^◌, ℕ, nat_lt, List, [], ◌∷◌, length, OnOk, OnErr, IsErrOf, IsOkUnless};
ghost use Rattle.std.specs.List.{list_any};
ghost use Rattle.std.specs.Set.{distinct_count};
ghost use Rattle.pgs_step.specs.declared.lock_modes.Mode.{Mode};
ghost use Rattle.pgs_step.specs.declared.events.What.{What};
ghost use Rattle.pgs_step.specs.declared.events.What.TheVariants.{AcquireLock, ReleaseLock};
ghost use Rattle.lock_shared.specs.Holdings.{IsConflict};
ghost use Rattle.lock_local.specs.declared.errors.LockError.TheVariants.{Conflict, NotHeld};
ghost use Rattle.lock_local.specs.Locks.{total, owner_total, count_of, whole_of, is_held, same_name, AreLocks, Agrees, OthersStay};
ghost use Rattle.lock_local.specs.Counts.{HoldsOneMore, HoldsOneLess, HoldsNothing, HoldsBoth, WholeOneMore, WholeOneLess, WholeLess, WholeStays};
ghost use Rattle.lock_local.specs.Changes.{acquired, given_back, released, passed, releases, passes, releases_of_all};

use crate::counting::{count_down, count_up};
use crate::errors::LockError;
use crate::local_lock::LocalLock;
use crate::recalled::{OwnerLocks, forget_last, forget_owner, hand_on, note};
use crate::tag_walks::{give_up_recalled, pass_recalled};
use crate::walks::release_each;
use lock_shared::SharedLocks;
use pgs_step::{Emit, Mode, OwnerId, What};
use std::alloc::{AllocError, Global};
use std::collections::VecDeque;
use std::marker::Model;

/// The locks of one session: how often each owner holds each object in each mode.
///
/// Contracts see the session's number and the locks in the order of object and mode, each with its owners
/// and their counts. The shared locks that calls are handed hold for the session just what it holds, and
/// each call leaves that so. For each owner up to 15 locks are remembered: its locks are released and passed
/// by these alone, and by a walk over all locks where it holds more.
#[derive(Drop)]
pub struct LockTable {
    alloc: Global,
    session: u8,
    locks: VecDeque<LocalLock>,
    recalled: VecDeque<OwnerLocks>,
    /// How often a lock was taken since the session last gave up all: no sum of counts is greater.
    taken: u64,
}

/// How often locks can be taken until the session gives up all.
const MOST_TAKEN: u64 = 1 << 62;

impl Model for LockTable {
    ghost use Rattle.std.specs.Prelude.{◌≤◌, ◌^◌};
    ghost use Rattle.lock_local.specs.Locks.{SessionLocks, AreLocks, total};
    ghost use Rattle.lock_local.specs.Recalled.{IsByOwner, Remembers};

    ghost Value = { SessionLocks };

    ghost view = { λ t. record { session = t.session; locks = t.locks.items } };

    ghost invariant = { λ t. record { fits : AreLocks t.locks.items × (total t.locks.items ≤ 2 ^ 62); by_owner : IsByOwner t.recalled.items; remembers : Remembers t.recalled.items t.locks.items; taken : total t.locks.items ≤ t.taken } };
}

impl LockTable {
    /// The table of a session that holds no lock.
    pub fn new(alloc: Global, session: u8) -> LockTable
        ensures { result ≡ record { session = session; locks = [] } }
    {
        LockTable {
            alloc,
            session,
            locks: VecDeque::new(alloc),
            recalled: VecDeque::new(alloc),
            taken: 0,
        }
    }

    /// The owner holds the object in this mode once more: PostgreSQL's `LockAcquire`.
    ///
    /// `Conflict` comes exactly where another session holds the object in a mode that conflicts. Where
    /// none does, it may fail for want of memory, which it also says where locks were taken 2^62 times
    /// since the session last gave up all.
    pub fn acquire<E: Emit>(
        &mut self,
        shared: &mut SharedLocks,
        owner: OwnerId,
        object: u32,
        mode: Mode,
        out: &mut E,
    ) -> Result<(), LockError>
        requires { Agrees self.old shared.old }
        ensures conflict { (s : ℕ) (m : Mode) → IsErrOf result (LockError.Conflict s m) ↔ IsConflict shared.old object mode self.old.session s m }
        ensures held { IsErrOf result LockError.NotHeld → ⊥ }

        ensures ok { OnOk result (self.new ≡ record self.old { locks = acquired owner.number object mode self.old.locks }) }
        ensures counts { OnOk result (HoldsOneMore self.old.locks self.new.locks object mode owner.number) }
        ensures wholes { OnOk result (WholeOneMore self.old.locks self.new.locks object mode) }
        ensures total { OnOk result (total self.new.locks ≡ total self.old.locks + 1) }
        ensures events { OnOk result (E.emits out.old (AcquireLock object mode owner.number ∷ []) out.new) }
        ensures err { OnErr result (self.new ≡ self.old) }
        ensures err_shared { OnErr result (shared.new ≡ shared.old) }
        ensures err_out { OnErr result (out.new ≡ out.old) }

        ensures agrees { Agrees self.new shared.new }
        ensures others { OthersStay self.old.session shared.old shared.new }
        ensures locks { AreLocks self.new.locks }
    {
        if let Some((session, mode)) = shared.conflict(object, mode, self.session) {
            return Err(LockError::Conflict { session, mode });
        }
        if self.hold(shared, owner.number, object, mode).is_err() {
            return Err(LockError::Memory);
        }
        out.emit(What::AcquireLock {
            object,
            mode,
            owner: owner.number,
        });
        Ok(())
    }

    /// The owner holds the object in this mode once less: PostgreSQL's `LockRelease`.
    ///
    /// `NotHeld` comes exactly where the owner doesn't hold it.
    pub fn release<E: Emit>(
        &mut self,
        shared: &mut SharedLocks,
        owner: OwnerId,
        object: u32,
        mode: Mode,
        out: &mut E,
    ) -> Result<(), LockError>
        requires { Agrees self.old shared.old }
        ensures not_held { IsErrOf result LockError.NotHeld ↔ (count_of self.old.locks object mode owner.number ≡ 0) }
        ensures only_not_held { IsOkUnless result LockError.NotHeld }

        ensures ok { OnOk result (self.new ≡ record self.old { locks = given_back owner.number object mode self.old.locks }) }
        ensures counts { OnOk result (HoldsOneLess self.old.locks self.new.locks object mode owner.number) }
        ensures wholes { OnOk result (WholeOneLess self.old.locks self.new.locks object mode) }
        ensures total { OnOk result (total self.new.locks + 1 ≡ total self.old.locks) }
        ensures events { OnOk result (E.emits out.old (ReleaseLock object mode 1 owner.number ∷ []) out.new) }
        ensures err { OnErr result (self.new ≡ self.old) }
        ensures err_shared { OnErr result (shared.new ≡ shared.old) }
        ensures err_out { OnErr result (out.new ≡ out.old) }

        ensures agrees { Agrees self.new shared.new }
        ensures others { OthersStay self.old.session shared.old shared.new }
        ensures locks { AreLocks self.new.locks }
    {
        if self.lower(shared, owner.number, object, mode) == 0 {
            return Err(LockError::NotHeld);
        }
        out.emit(What::ReleaseLock {
            object,
            mode,
            count: 1,
            owner: owner.number,
        });
        Ok(())
    }

    /// All that the owner holds is released, as at the abort of a subtransaction.
    #[inline]
    pub fn release_owner<E: Emit>(&mut self, shared: &mut SharedLocks, owner: OwnerId, out: &mut E)
        requires { Agrees self.old shared.old }
        ensures state { self.new ≡ record self.old { locks = released owner.number self.old.locks } }
        ensures counts { HoldsNothing self.old.locks self.new.locks owner.number }
        ensures wholes { WholeLess self.old.locks self.new.locks owner.number }
        ensures total { total self.new.locks + owner_total owner.number self.old.locks ≡ total self.old.locks }
        ensures events { E.emits out.old (releases owner.number self.old.locks) out.new }
        ensures agrees { Agrees self.new shared.new }
        ensures others { OthersStay self.old.session shared.old shared.new }
        ensures locks { AreLocks self.new.locks }
    {
        if self.is_idle() {
            return;
        }
        self.release_recalled(shared, owner, out);
    }

    /// The same, where the session perhaps holds a lock.
    #[inline(never)]
    fn release_recalled<E: Emit>(&mut self, shared: &mut SharedLocks, owner: OwnerId, out: &mut E)
        requires { Agrees self.old shared.old }
        ensures state { self.new ≡ record self.old { locks = released owner.number self.old.locks } }
        ensures counts { HoldsNothing self.old.locks self.new.locks owner.number }
        ensures wholes { WholeLess self.old.locks self.new.locks owner.number }
        ensures total { total self.new.locks + owner_total owner.number self.old.locks ≡ total self.old.locks }
        ensures events { E.emits out.old (releases owner.number self.old.locks) out.new }
        ensures agrees { Agrees self.new shared.new }
        ensures others { OthersStay self.old.session shared.old shared.new }
        ensures locks { AreLocks self.new.locks }
    {
        give_up_recalled(
            &mut self.locks,
            &self.recalled,
            self.session,
            owner.number,
            shared,
            out,
        );
        forget_owner(&mut self.recalled, owner.number);
    }

    /// All that the owner `from` holds goes to the owner `to`, its parent, as at the commit of a
    /// subtransaction. The counts are added to those that `to` has.
    #[inline]
    pub fn pass_owner<E: Emit>(&mut self, from: OwnerId, to: OwnerId, out: &mut E)
        ensures state { self.new ≡ record self.old { locks = passed from.number to.number self.old.locks } }
        ensures counts { HoldsBoth self.old.locks self.new.locks from.number to.number }
        ensures wholes { WholeStays self.old.locks self.new.locks }
        ensures total { total self.new.locks ≡ total self.old.locks }
        ensures events { E.emits out.old (passes from.number to.number self.old.locks) out.new }
        ensures held { (object : ℕ) (mode : Mode) → is_held self.new.locks object mode ≡ is_held self.old.locks object mode }
        ensures locks { AreLocks self.new.locks }
    {
        if self.is_idle() {
            return;
        }
        self.pass_held(from, to, out);
    }

    /// The same, where the session perhaps holds a lock.
    #[inline(never)]
    fn pass_held<E: Emit>(&mut self, from: OwnerId, to: OwnerId, out: &mut E)
        ensures state { self.new ≡ record self.old { locks = passed from.number to.number self.old.locks } }
        ensures counts { HoldsBoth self.old.locks self.new.locks from.number to.number }
        ensures wholes { WholeStays self.old.locks self.new.locks }
        ensures total { total self.new.locks ≡ total self.old.locks }
        ensures events { E.emits out.old (passes from.number to.number self.old.locks) out.new }
        ensures held { (object : ℕ) (mode : Mode) → is_held self.new.locks object mode ≡ is_held self.old.locks object mode }
        ensures locks { AreLocks self.new.locks }
    {
        pass_recalled(&mut self.locks, &self.recalled, from.number, to.number, out);
        hand_on(&mut self.recalled, from.number, to.number);
    }

    /// All that the session holds is released, as at the end of a transaction: each lock with the sum of
    /// its counts, in the name of the topmost owner.
    #[inline]
    pub fn release_all<E: Emit>(&mut self, shared: &mut SharedLocks, top: OwnerId, out: &mut E)
        requires { Agrees self.old shared.old }
        ensures state { self.new ≡ record self.old { locks = [] } }
        ensures events { E.emits out.old (releases_of_all top.number self.old.locks) out.new }
        ensures agrees { Agrees self.new shared.new }
        ensures others { OthersStay self.old.session shared.old shared.new }
        ensures was { AreLocks self.old.locks }
    {
        if self.is_idle() {
            self.taken = 0;
            return;
        }
        self.release_every(shared, top, out);
    }

    /// The same, where the session perhaps holds a lock.
    #[inline(never)]
    fn release_every<E: Emit>(&mut self, shared: &mut SharedLocks, top: OwnerId, out: &mut E)
        requires { Agrees self.old shared.old }
        ensures state { self.new ≡ record self.old { locks = [] } }
        ensures events { E.emits out.old (releases_of_all top.number self.old.locks) out.new }
        ensures agrees { Agrees self.new shared.new }
        ensures others { OthersStay self.old.session shared.old shared.new }
        ensures was { AreLocks self.old.locks }
    {
        release_each(
            self.locks.make_contiguous(),
            self.session,
            top.number,
            shared,
            out,
        );
        self.locks.clear();
        self.recalled.clear();
        self.taken = 0;
    }

    /// Facts of every table, for proofs. It does nothing.
    pub fn laws(&self)
        ensures locks { AreLocks self.now.locks }
        // a lock is held where all owners together hold it at least once
        ensures held { (object : ℕ) (mode : Mode) → is_held self.now.locks object mode ≡ nat_lt 0 (whole_of self.now.locks object mode) }
        // of any list of the objects and modes that are held, the number of different ones
        ensures different { (names : List (ℕ × Mode)) → ((object : ℕ) (mode : Mode) → list_any (same_name (object, mode)) names ≡ is_held self.now.locks object mode) → length self.now.locks ≡ distinct_count same_name names }
    {
        let _ = &self.locks;
    }

    /// How many different objects and modes the session holds.
    pub fn distinct(&self) -> u64
        ensures count { result ≡ length self.now.locks }
        ensures locks { AreLocks self.now.locks }
    {
        self.locks.len() as u64
    }

    /// Whether the session holds no lock, and none is remembered for any owner. Most levels end so.
    #[inline(always)]
    fn is_idle(&self) -> bool
        ensures { result ≡ true → self.now.locks ≡ [] }
    {
        self.locks.is_empty() && self.recalled.is_empty()
    }

    /// The owner holds the lock once more. It fails for want of memory, or where locks were taken too often.
    fn hold(
        &mut self,
        shared: &mut SharedLocks,
        owner: u64,
        object: u32,
        mode: Mode,
    ) -> Result<(), AllocError>
        requires { Agrees self.old shared.old }
        ensures ok { OnOk result (self.new ≡ record self.old { locks = acquired owner object mode self.old.locks }) }
        ensures counts { OnOk result (HoldsOneMore self.old.locks self.new.locks object mode owner) }
        ensures wholes { OnOk result (WholeOneMore self.old.locks self.new.locks object mode) }
        ensures total { OnOk result (total self.new.locks ≡ total self.old.locks + 1) }
        ensures err { OnErr result (self.new ≡ self.old) }
        ensures err_shared { OnErr result (shared.new ≡ shared.old) }
        ensures agrees { Agrees self.new shared.new }
        ensures others { OthersStay self.old.session shared.old shared.new }
        ensures locks { AreLocks self.new.locks }
    {
        if self.taken >= MOST_TAKEN {
            return Err(AllocError);
        }
        self.recalled.reserve(1)?;
        count_up(
            self.alloc,
            &mut self.locks,
            self.session,
            shared,
            owner,
            object,
            mode,
        )?;
        note(&mut self.recalled, owner, object, mode);
        self.taken += 1;
        Ok(())
    }

    /// The owner holds the lock once less, where it holds it. The answer is how often it did before.
    fn lower(&mut self, shared: &mut SharedLocks, owner: u64, object: u32, mode: Mode) -> u64
        requires { Agrees self.old shared.old }
        ensures answer { result ≡ count_of self.old.locks object mode owner }
        ensures held { 0 < result → self.new ≡ record self.old { locks = given_back owner object mode self.old.locks } }
        ensures counts { 0 < result → HoldsOneLess self.old.locks self.new.locks object mode owner }
        ensures wholes { 0 < result → WholeOneLess self.old.locks self.new.locks object mode }
        ensures total { 0 < result → total self.new.locks + 1 ≡ total self.old.locks }
        ensures none { result ≡ 0 → self.new ≡ self.old }
        ensures none_shared { result ≡ 0 → shared.new ≡ shared.old }
        ensures agrees { Agrees self.new shared.new }
        ensures others { OthersStay self.old.session shared.old shared.new }
        ensures locks { AreLocks self.new.locks }
    {
        let count = count_down(&mut self.locks, self.session, shared, owner, object, mode);
        forget_last(&mut self.recalled, count, owner, object, mode);
        count
    }
}
