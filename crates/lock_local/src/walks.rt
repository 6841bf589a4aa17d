//! Walks over a session's locks.
ghost use Rattle.std.specs.Prelude.{◌≡◌, ◌∷◌, [], ℕ, map, filter, MatchBool, false};
ghost use Rattle.pgs_step.specs.declared.lock_modes.Mode.{Mode};
ghost use Rattle.lock_shared.specs.Holdings.{Sets, holds};
ghost use Rattle.lock_local.specs.Locks.{has_owner, OthersStay, IsInOrder, is_held};
ghost use Rattle.lock_local.specs.Changes.{without, passed_lock, release_of, pass_of, release_whole, released, passed, releases, passes, releases_of_all};

use crate::local_lock::LocalLock;
use lock_shared::SharedLocks;
use pgs_step::{Emit, Mode, What};
use std::collections::VecDeque;

/// Takes off the locks that no owner holds.
fn keep_held(locks: &mut VecDeque<LocalLock>)
    ensures { locks.new.items ≡ filter has_owner locks.old.items }
{
    locks.retain(|lock| lock.has_owner());
}

/// The owner gives up what it holds, lock by lock.
pub fn give_up_all<E: Emit>(
    locks: &mut VecDeque<LocalLock>,
    session: u8,
    owner: u64,
    shared: &mut SharedLocks,
    out: &mut E,
)
    requires in_order { IsInOrder locks.old.items }
    requires agrees { (o : ℕ) (m : Mode) → holds shared.old o m session ≡ is_held locks.old.items o m }
    ensures locks { locks.new.items ≡ released owner locks.old.items }
    ensures events { E.emits out.old (releases owner locks.old.items) out.new }
    ensures agrees { (o : ℕ) (m : Mode) → holds shared.new o m session ≡ is_held locks.new.items o m }
    ensures others { OthersStay session shared.old shared.new }
{
    give_up_each(locks.make_contiguous(), session, owner, shared, out);
    keep_held(locks);
}

/// One owner's counts go to another, lock by lock.
pub fn pass_all<E: Emit>(locks: &mut VecDeque<LocalLock>, from: u64, to: u64, out: &mut E)
    ensures locks { locks.new.items ≡ passed from to locks.old.items }
    ensures events { E.emits out.old (passes from to locks.old.items) out.new }
{
    pass_each(locks.make_contiguous(), from, to, out);
}

/// The owner gives up what it holds of each lock.
fn give_up_each<E: Emit>(
    locks: &mut [LocalLock],
    session: u8,
    owner: u64,
    shared: &mut SharedLocks,
    out: &mut E,
)
    requires in_order { IsInOrder locks.old }
    requires agrees { (o : ℕ) (m : Mode) → holds shared.old o m session ≡ is_held locks.old o m }
    ensures locks { locks.new ≡ map (without owner) locks.old }
    ensures events { E.emits out.old (releases owner locks.old) out.new }
    ensures agrees { (o : ℕ) (m : Mode) → holds shared.new o m session ≡ is_held locks.new o m }
    ensures others { OthersStay session shared.old shared.new }
{
    for lock in locks.iter_mut() {
        give_up(lock, session, owner, shared, out);
    }
}

/// One owner's counts of each lock go to another.
fn pass_each<E: Emit>(locks: &mut [LocalLock], from: u64, to: u64, out: &mut E)
    ensures locks { locks.new ≡ map (passed_lock from to) locks.old }
    ensures events { E.emits out.old (passes from to locks.old) out.new }
{
    for lock in locks.iter_mut() {
        pass_on(lock, from, to, out);
    }
}

/// The session gives up what it holds, lock by lock.
pub fn release_each<E: Emit>(
    locks: &[LocalLock],
    session: u8,
    top: u64,
    shared: &mut SharedLocks,
    out: &mut E,
)
    requires in_order { IsInOrder locks.now }
    requires agrees { (o : ℕ) (m : Mode) → holds shared.old o m session ≡ is_held locks.now o m }
    ensures events { E.emits out.old (releases_of_all top locks.now) out.new }
    ensures agrees { (o : ℕ) (m : Mode) → holds shared.new o m session ≡ false }
    ensures others { OthersStay session shared.old shared.new }
{
    for lock in locks {
        release_lock(lock, session, top, shared, out);
    }
}

/// The owner gives up a lock. Where no other owner holds it, the session doesn't any more.
pub fn give_up<E: Emit>(
    lock: &mut LocalLock,
    session: u8,
    owner: u64,
    shared: &mut SharedLocks,
    out: &mut E,
)
    ensures lock { lock.new ≡ without owner lock.old }
    ensures events { E.emits out.old (release_of owner lock.old) out.new }
    ensures shared { MatchBool (has_owner lock.new) (shared.new ≡ shared.old) (Sets shared.old shared.new lock.old.object lock.old.mode session false) }
{
    let count = lock.give_up(owner);
    if count > 0 {
        out.emit(What::ReleaseLock {
            object: lock.object(),
            mode: lock.mode(),
            count,
            owner,
        });
    }
    if !lock.has_owner() {
        shared.drop_grant(lock.object(), lock.mode(), session);
    }
}

/// One owner's counts of a lock go to another.
pub fn pass_on<E: Emit>(lock: &mut LocalLock, from: u64, to: u64, out: &mut E)
    ensures lock { lock.new ≡ passed_lock from to lock.old }
    ensures events { E.emits out.old (pass_of from to lock.old) out.new }
{
    let count = lock.pass(from, to);
    if count > 0 {
        out.emit(What::PassLock {
            object: lock.object(),
            mode: lock.mode(),
            count,
            from,
            to,
        });
    }
}

/// The session gives up a lock, with the sum of its counts, in the name of one owner.
fn release_lock<E: Emit>(
    lock: &LocalLock,
    session: u8,
    top: u64,
    shared: &mut SharedLocks,
    out: &mut E,
)
    ensures events { E.emits out.old (release_whole top lock.now ∷ []) out.new }
    ensures shared { Sets shared.old shared.new lock.now.object lock.now.mode session false }
{
    out.emit(What::ReleaseLock {
        object: lock.object(),
        mode: lock.mode(),
        count: lock.total(),
        owner: top,
    });
    shared.drop_grant(lock.object(), lock.mode(), session);
}
