//! The table of conflicts whole, and each call once.
use lock_shared::{SharedLocks, conflicts};
use pgs_step::Mode;
use std::alloc::AllocError;
use std::test::Fail;

const MODES: [Mode; 8] = [
    Mode::AccessShareLock,
    Mode::RowShareLock,
    Mode::RowExclusiveLock,
    Mode::ShareUpdateExclusiveLock,
    Mode::ShareLock,
    Mode::ShareRowExclusiveLock,
    Mode::ExclusiveLock,
    Mode::AccessExclusiveLock,
];

/// A row for each mode that is wanted, a column for each that is held: 1 where they conflict.
const TABLE: [[u8; 8]; 8] = [
    [0, 0, 0, 0, 0, 0, 0, 1],
    [0, 0, 0, 0, 0, 0, 1, 1],
    [0, 0, 0, 0, 1, 1, 1, 1],
    [0, 0, 0, 1, 1, 1, 1, 1],
    [0, 0, 1, 1, 0, 1, 1, 1],
    [0, 0, 1, 1, 1, 1, 1, 1],
    [0, 1, 1, 1, 1, 1, 1, 1],
    [1, 1, 1, 1, 1, 1, 1, 1],
];

#[test]
fn table_of_conflicts(rt: HostRuntime) {
    for (wanted, row) in MODES.iter().zip(TABLE.iter()) {
        for (held, conflict) in MODES.iter().zip(row.iter()) {
            assert_eq!(rt;
                conflicts(*wanted, *held),
                *conflict == 1,
                "{} {}",
                wanted.number(),
                held.number()
            );
        }
    }
}

/// Three sessions hold the object 5 in four modes, and one holds the object 6.
fn grant_all(locks: &mut SharedLocks) -> Result<(), AllocError> {
    for (object, mode, session) in [
        (5, Mode::AccessExclusiveLock, 1),
        (5, Mode::ShareLock, 3),
        (5, Mode::RowShareLock, 2),
        (5, Mode::AccessShareLock, 2),
        (6, Mode::AccessShareLock, 0),
    ] {
        locks.grant(object, mode, session)?;
    }
    Ok(())
}

#[test]
fn least_session_and_mode(rt: HostRuntime) -> Result<(), Fail> {
    let mut locks = SharedLocks::new(rt.alloc());
    assert_eq!(rt; locks.conflict(5, Mode::AccessExclusiveLock, 1), None);
    grant_all(&mut locks)?;
    for (mode, session, conflict) in [
        (
            Mode::AccessExclusiveLock,
            1,
            Some((2, Mode::AccessShareLock)),
        ),
        (Mode::ExclusiveLock, 1, Some((2, Mode::RowShareLock))),
        (Mode::RowExclusiveLock, 1, Some((3, Mode::ShareLock))),
        (Mode::AccessShareLock, 1, None),
        (
            Mode::AccessShareLock,
            2,
            Some((1, Mode::AccessExclusiveLock)),
        ),
    ] {
        assert_eq!(rt; locks.conflict(5, mode, session), conflict);
    }
    Ok(())
}

#[test]
fn one_drop_undoes_grants(rt: HostRuntime) -> Result<(), Fail> {
    let mut locks = SharedLocks::new(rt.alloc());
    locks.grant(5, Mode::ShareLock, 1)?;
    locks.grant(5, Mode::ShareLock, 1)?;
    locks.grant(5, Mode::ShareLock, 2)?;
    locks.drop_grant(5, Mode::ShareLock, 1);
    locks.drop_grant(7, Mode::ShareLock, 2);
    assert_eq!(rt; locks.conflict(5, Mode::RowExclusiveLock, 2), None);
    assert_eq!(rt;
        locks.conflict(5, Mode::RowExclusiveLock, 1),
        Some((2, Mode::ShareLock))
    );
    Ok(())
}
