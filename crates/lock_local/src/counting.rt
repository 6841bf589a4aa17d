//! How a lock is counted up and down.
ghost use Rattle.std.specs.Prelude.{◌≡◌, ◌<◌, ◌+◌, ◌^◌, ℕ, OnOk, OnErr};
ghost use Rattle.pgs_step.specs.declared.lock_modes.Mode.{Mode};
ghost use Rattle.lock_shared.specs.Holdings.{holds};
ghost use Rattle.lock_local.specs.Locks.{total, count_of, is_held, AreLocks, OthersStay};
ghost use Rattle.lock_local.specs.Counts.{HoldsOneLess, WholeOneLess};
ghost use Rattle.lock_local.specs.Changes.{acquired, given_back};

use crate::local_lock::LocalLock;
use crate::places::{find, keep_if_held, put_in};
use lock_shared::SharedLocks;
use pgs_step::Mode;
use std::alloc::{AllocError, Global};
use std::collections::VecDeque;

/// The owner holds the lock once more. It fails for want of memory alone.
pub fn count_up(
    alloc: Global,
    locks: &mut VecDeque<LocalLock>,
    session: u8,
    shared: &mut SharedLocks,
    owner: u64,
    object: u32,
    mode: Mode,
) -> Result<(), AllocError>
    requires locks { AreLocks locks.old.items }
    requires agrees { (o : ℕ) (m : Mode) → holds shared.old o m session ≡ is_held locks.old.items o m }
    requires few { total locks.old.items < 2 ^ 62 }
    ensures ok { OnOk result (locks.new.items ≡ acquired owner object mode locks.old.items) }
    ensures err { OnErr result (locks.new.items ≡ locks.old.items) }
    ensures err_shared { OnErr result (shared.new ≡ shared.old) }
    ensures agrees { (o : ℕ) (m : Mode) → holds shared.new o m session ≡ is_held locks.new.items o m }
    ensures others { OthersStay session shared.old shared.new }
{
    match find(locks, object, mode) {
        Ok(at) => {
            let lock = &mut locks[at];
            lock.count_up(owner)?;
        }
        Err(at) => {
            let lock = LocalLock::new(alloc, object, mode, owner);
            locks.reserve(1)?;
            shared.grant(object, mode, session)?;
            put_in(locks, at, lock);
        }
    }
    Ok(())
}

/// The owner holds the lock once less, where it holds it. The answer is how often it did before.
pub fn count_down(
    locks: &mut VecDeque<LocalLock>,
    session: u8,
    shared: &mut SharedLocks,
    owner: u64,
    object: u32,
    mode: Mode,
) -> u64
    requires locks { AreLocks locks.old.items }
    requires agrees { (o : ℕ) (m : Mode) → holds shared.old o m session ≡ is_held locks.old.items o m }
    ensures answer { result ≡ count_of locks.old.items object mode owner }
    ensures held { 0 < result → locks.new.items ≡ given_back owner object mode locks.old.items }
    ensures counts { 0 < result → HoldsOneLess locks.old.items locks.new.items object mode owner }
    ensures wholes { 0 < result → WholeOneLess locks.old.items locks.new.items object mode }
    ensures total { 0 < result → total locks.new.items + 1 ≡ total locks.old.items }
    ensures none { result ≡ 0 → locks.new.items ≡ locks.old.items }
    ensures none_shared { result ≡ 0 → shared.new ≡ shared.old }
    ensures agrees { (o : ℕ) (m : Mode) → holds shared.new o m session ≡ is_held locks.new.items o m }
    ensures others { OthersStay session shared.old shared.new }
{
    let Ok(at) = find(locks, object, mode) else {
        return 0;
    };
    let count = locks[at].count(owner);
    if count == 0 {
        return 0;
    }
    let lock = &mut locks[at];
    lock.count_down(owner);
    if !lock.has_owner() {
        shared.drop_grant(object, mode, session);
    }
    keep_if_held(locks, at);
    count
}
