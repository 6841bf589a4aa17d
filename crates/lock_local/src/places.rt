//! Where a lock stands among a session's locks.
ghost use Rattle.std.specs.Prelude.{◌≡◌, ◌≢◌, ◌<◌, ◌≤◌, ℕ, filter, insert, true, slice_index_or, MatchResult};
ghost use Rattle.std.specs.VecDeque.{deque_len, deque_capacity};
ghost use Rattle.lock_local.specs.Locks.{Lock, has_owner, IsInOrder};
ghost use Rattle.lock_local.specs.Places.{StandsAt, WouldStandAt};

use crate::local_lock::LocalLock;
use pgs_step::Mode;
use std::collections::VecDeque;

/// Where the lock stands, or else where it would stand.
pub fn find(locks: &VecDeque<LocalLock>, object: u32, mode: Mode) -> Result<usize, usize>
    requires { IsInOrder locks.now.items }
    ensures { (d : Lock) → MatchResult result (λ i. StandsAt object mode locks.now.items i d) (λ i. WouldStandAt object mode locks.now.items i d) }
{
    let mut low = 0;
    let mut high = locks.len();
    while low < high {
        let middle = low + (high - low) / 2;
        if locks[middle].comes_before(object, mode) {
            low = middle + 1;
        } else {
            high = middle;
        }
    }
    if low < locks.len() && locks[low].is(object, mode) {
        Ok(low)
    } else {
        Err(low)
    }
}

/// Puts a lock at its place, where there is room for it.
pub fn put_in(locks: &mut VecDeque<LocalLock>, at: usize, lock: LocalLock)
    requires within { at ≤ deque_len locks.old }
    requires room { deque_len locks.old < deque_capacity locks.old }
    ensures { locks.new.items ≡ insert locks.old.items at lock }
{
    let _ = locks.insert(at, lock);
}

/// Takes the lock at a place off where no owner holds it. Each other one has an owner.
pub fn keep_if_held(locks: &mut VecDeque<LocalLock>, at: usize)
    requires within { at < deque_len locks.old }
    requires others { (k : ℕ) (d : Lock) → k < deque_len locks.old → k ≢ at → has_owner (slice_index_or locks.old.items k d) ≡ true }
    ensures { locks.new.items ≡ filter has_owner locks.old.items }
{
    if !locks[at].has_owner() {
        locks.remove(at);
    }
}
