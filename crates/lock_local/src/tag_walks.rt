//! Walks over the locks that are remembered for an owner.
ghost use Rattle.std.specs.Prelude.{◌≡◌, ◌≢◌, ◌<◌, ℕ, filter, slice_index_or, slice_set};
ghost use Rattle.std.specs.VecDeque.{deque_len};
ghost use Rattle.pgs_step.specs.declared.lock_modes.Mode.{Mode};
ghost use Rattle.lock_shared.specs.Holdings.{holds};
ghost use Rattle.lock_local.specs.Locks.{Lock, has_owner, is_held, AreLocks, OthersStay, IsInOrder};
ghost use Rattle.lock_local.specs.Changes.{without, passed_lock, release_of, pass_of, released, passed, releases, passes};
ghost use Rattle.lock_local.specs.Recalled.{IsByOwner, IsRising, Remembers};
ghost use Rattle.lock_local.specs.Tagged.{AreTagged, given_up, gives_up, handed_on, hands_on};

use crate::local_lock::LocalLock;
use crate::places::{find, keep_if_held};
use crate::recalled::{LockTag, OwnerLocks, recall_of};
use crate::walks::{give_up, give_up_all, pass_all, pass_on};
use lock_shared::SharedLocks;
use pgs_step::{Emit, Mode};
use std::collections::VecDeque;

/// The owner gives up what it holds, by what is remembered of its locks.
pub fn give_up_recalled<E: Emit>(
    locks: &mut VecDeque<LocalLock>,
    recalled: &VecDeque<OwnerLocks>,
    session: u8,
    owner: u64,
    shared: &mut SharedLocks,
    out: &mut E,
)
    requires locks { AreLocks locks.old.items }
    requires by_owner { IsByOwner recalled.now.items }
    requires remembers { Remembers recalled.now.items locks.old.items }
    requires agrees { (o : ℕ) (m : Mode) → holds shared.old o m session ≡ is_held locks.old.items o m }
    ensures locks { locks.new.items ≡ released owner locks.old.items }
    ensures events { E.emits out.old (releases owner locks.old.items) out.new }
    ensures agrees { (o : ℕ) (m : Mode) → holds shared.new o m session ≡ is_held locks.new.items o m }
    ensures others { OthersStay session shared.old shared.new }
{
    match recall_of(recalled, owner) {
        Some(recall) => {
            if recall.has_more() {
                give_up_all(locks, session, owner, shared, out);
            } else {
                give_up_tagged(locks, recall.tags(), session, owner, shared, out);
            }
        }
        None => give_up_tagged(locks, &[], session, owner, shared, out),
    }
}

/// One owner's counts go to another, by what is remembered of the locks of the one. An owner whose locks go
/// to itself is looked for in all of them.
pub fn pass_recalled<E: Emit>(
    locks: &mut VecDeque<LocalLock>,
    recalled: &VecDeque<OwnerLocks>,
    from: u64,
    to: u64,
    out: &mut E,
)
    requires locks { AreLocks locks.old.items }
    requires by_owner { IsByOwner recalled.now.items }
    requires remembers { Remembers recalled.now.items locks.old.items }
    ensures locks { locks.new.items ≡ passed from to locks.old.items }
    ensures events { E.emits out.old (passes from to locks.old.items) out.new }
{
    if from == to {
        pass_all(locks, from, to, out);
        return;
    }
    match recall_of(recalled, from) {
        Some(recall) => {
            if recall.has_more() {
                pass_all(locks, from, to, out);
            } else {
                pass_tagged(locks, recall.tags(), from, to, out);
            }
        }
        None => pass_tagged(locks, &[], from, to, out),
    }
}

/// The owner gives up what it holds, by the tags of its locks.
pub fn give_up_tagged<E: Emit>(
    locks: &mut VecDeque<LocalLock>,
    tags: &[LockTag],
    session: u8,
    owner: u64,
    shared: &mut SharedLocks,
    out: &mut E,
)
    requires locks { AreLocks locks.old.items }
    requires rising { IsRising tags.now }
    requires tagged { AreTagged owner tags.now locks.old.items }
    requires agrees { (o : ℕ) (m : Mode) → holds shared.old o m session ≡ is_held locks.old.items o m }
    ensures locks { locks.new.items ≡ released owner locks.old.items }
    ensures events { E.emits out.old (releases owner locks.old.items) out.new }
    ensures agrees { (o : ℕ) (m : Mode) → holds shared.new o m session ≡ is_held locks.new.items o m }
    ensures others { OthersStay session shared.old shared.new }
{
    for tag in tags {
        give_up_one(locks, tag.object, tag.mode, session, owner, shared, out);
    }
}

/// One owner's counts go to another, by the tags of the locks of the one.
pub fn pass_tagged<E: Emit>(
    locks: &mut VecDeque<LocalLock>,
    tags: &[LockTag],
    from: u64,
    to: u64,
    out: &mut E,
)
    requires different { from ≢ to }
    requires locks { AreLocks locks.old.items }
    requires rising { IsRising tags.now }
    requires tagged { AreTagged from tags.now locks.old.items }
    ensures locks { locks.new.items ≡ passed from to locks.old.items }
    ensures events { E.emits out.old (passes from to locks.old.items) out.new }
{
    for tag in tags {
        pass_one(locks, tag.object, tag.mode, from, to, out);
    }
}

/// The owner gives up the lock on the object in the mode, if it holds it.
fn give_up_one<E: Emit>(
    locks: &mut VecDeque<LocalLock>,
    object: u32,
    mode: Mode,
    session: u8,
    owner: u64,
    shared: &mut SharedLocks,
    out: &mut E,
)
    requires locks { AreLocks locks.old.items }
    requires agrees { (o : ℕ) (m : Mode) → holds shared.old o m session ≡ is_held locks.old.items o m }
    ensures locks { locks.new.items ≡ given_up owner object mode locks.old.items }
    ensures events { E.emits out.old (gives_up owner object mode locks.old.items) out.new }
    ensures agrees { (o : ℕ) (m : Mode) → holds shared.new o m session ≡ is_held locks.new.items o m }
    ensures others { OthersStay session shared.old shared.new }
{
    if let Ok(at) = find(locks, object, mode) {
        give_up_at(locks, at, session, owner, shared, out);
    }
}

/// The owner gives up the lock at a place, if it holds it.
fn give_up_at<E: Emit>(
    locks: &mut VecDeque<LocalLock>,
    at: usize,
    session: u8,
    owner: u64,
    shared: &mut SharedLocks,
    out: &mut E,
)
    requires within { at < deque_len locks.old }
    requires locks { AreLocks locks.old.items }
    requires agrees { (o : ℕ) (m : Mode) → holds shared.old o m session ≡ is_held locks.old.items o m }
    ensures locks { (d : Lock) → locks.new.items ≡ filter has_owner (slice_set locks.old.items at (without owner (slice_index_or locks.old.items at d))) }
    ensures events { (d : Lock) → E.emits out.old (release_of owner (slice_index_or locks.old.items at d)) out.new }
    ensures agrees { (o : ℕ) (m : Mode) → holds shared.new o m session ≡ is_held locks.new.items o m }
    ensures others { OthersStay session shared.old shared.new }
{
    let lock = &mut locks[at];
    give_up(lock, session, owner, shared, out);
    keep_if_held(locks, at);
}

/// One owner's counts of the lock on the object in the mode go to another.
fn pass_one<E: Emit>(
    locks: &mut VecDeque<LocalLock>,
    object: u32,
    mode: Mode,
    from: u64,
    to: u64,
    out: &mut E,
)
    requires { IsInOrder locks.old.items }
    ensures locks { locks.new.items ≡ handed_on from to object mode locks.old.items }
    ensures events { E.emits out.old (hands_on from to object mode locks.old.items) out.new }
{
    if let Ok(at) = find(locks, object, mode) {
        let lock = &mut locks[at];
        pass_on(lock, from, to, out);
    }
}
