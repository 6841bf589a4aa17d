//! Each call once, the rows of the error table, and passing and releasing by owners.
ghost use Rattle.lock_local.specs.Locks.{Agrees};

use lock_local::{LockError, LockTable};
use lock_shared::SharedLocks;
use pgs_step::{EventList, Mode, OwnerId, What};
use std::alloc::Global;
use std::process::Abort;
use std::test::Fail;

const SHARE: Mode = Mode::AccessShareLock;

const EXCLUSIVE: Mode = Mode::AccessExclusiveLock;

const ONE: OwnerId = OwnerId { number: 1, slot: 0 };

const TWO: OwnerId = OwnerId { number: 2, slot: 1 };

fn release(object: u32, mode: Mode, count: u64, owner: u64) -> What {
    What::ReleaseLock {
        object,
        mode,
        count,
        owner,
    }
}

/// One object by an owner, and twice by another one.
fn take_thrice(
    table: &mut LockTable,
    shared: &mut SharedLocks,
    out: &mut EventList,
) -> Result<(), LockError>
    requires agrees { Agrees table.old shared.old }
    ensures agrees { Agrees table.new shared.new }
{
    table.acquire(shared, ONE, 5, SHARE, out)?;
    table.acquire(shared, TWO, 5, SHARE, out)?;
    table.acquire(shared, TWO, 5, SHARE, out)
}

#[test]
fn counts_are_passed_and_go_in_one_sum(rt: HostRuntime) -> Result<(), Fail> {
    let mut shared = SharedLocks::new(rt.alloc());
    let mut table = LockTable::new(rt.alloc(), 1);
    let mut out = EventList::new(rt.alloc(), 10)?;
    take_thrice(&mut table, &mut shared, &mut out)?;
    assert_eq!(rt; table.distinct(), 1);
    table.pass_owner(TWO, ONE, &mut out);
    assert_eq!(rt;
        table.release(&mut shared, TWO, 5, SHARE, &mut out),
        Err(LockError::NotHeld)
    );
    table.release_all(&mut shared, ONE, &mut out);
    assert_eq!(rt; table.distinct(), 0);
    assert_eq!(rt; shared.conflict(5, EXCLUSIVE, 2), None);
    let pass = What::PassLock {
        object: 5,
        mode: SHARE,
        count: 2,
        from: 2,
        to: 1,
    };
    assert_eq!(rt; out.events().len(), 5);
    assert_eq!(rt;
        out.events()[0],
        What::AcquireLock {
            object: 5,
            mode: SHARE,
            owner: 1
        }
    );
    assert_eq!(rt; out.events()[3], pass);
    assert_eq!(rt; out.events()[4], release(5, SHARE, 3, 1));
    Ok(())
}

/// Two objects by an owner, one of them in two modes, and one by another owner.
fn take_four(
    table: &mut LockTable,
    shared: &mut SharedLocks,
    out: &mut EventList,
) -> Result<(), LockError>
    requires agrees { Agrees table.old shared.old }
    ensures agrees { Agrees table.new shared.new }
{
    table.acquire(shared, TWO, 7, SHARE, out)?;
    table.acquire(shared, TWO, 5, EXCLUSIVE, out)?;
    table.acquire(shared, TWO, 5, SHARE, out)?;
    table.acquire(shared, ONE, 5, SHARE, out)
}

#[test]
fn an_owner_releases_in_order(rt: HostRuntime) -> Result<(), Fail> {
    let mut shared = SharedLocks::new(rt.alloc());
    let mut table = LockTable::new(rt.alloc(), 1);
    let mut out = EventList::new(rt.alloc(), 10)?;
    take_four(&mut table, &mut shared, &mut out)?;
    table.release_owner(&mut shared, TWO, &mut out);
    assert_eq!(rt; table.distinct(), 1);
    assert_eq!(rt; out.events().len(), 7);
    assert_eq!(rt; out.events()[4], release(5, SHARE, 1, 2));
    assert_eq!(rt; out.events()[5], release(5, EXCLUSIVE, 1, 2));
    assert_eq!(rt; out.events()[6], release(7, SHARE, 1, 2));
    assert_eq!(rt; shared.conflict(7, EXCLUSIVE, 2), None);
    assert_eq!(rt; shared.conflict(5, EXCLUSIVE, 2), Some((1, SHARE)));
    table.release(&mut shared, ONE, 5, SHARE, &mut out)?;
    assert_eq!(rt; shared.conflict(5, EXCLUSIVE, 2), None);
    Ok(())
}

#[test]
fn refusals_are_told(rt: HostRuntime) -> Result<(), Fail> {
    let refused = LockError::Conflict {
        session: 1,
        mode: SHARE,
    };
    let text = format!(in rt.alloc(); "{refused}")?;
    assert_eq!(rt;
        text.as_str(),
        "lock is held by session 1 as AccessShareLock"
    );
    Ok(())
}
