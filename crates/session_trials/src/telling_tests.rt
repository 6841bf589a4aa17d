//! What sessions say of active snapshots, and of what they hold.
ghost use Rattle.std.specs.Prelude.{◌≤◌};

use crate::saying::{acquire, before_exit, create, item, level, name, owner_in, release, top};
use crate::{Played, outcome};
use pgs_command::{
    Command, ItemCommand, LockCommand, ReferenceClass, SnapshotCommand, TellCommand,
    TransactionCommand, Work,
};
use pgs_step::{Depth, Error, KindId, MemoryCounters, Mode, Name, SessionCounts, What};
use session_core::StartError;
use std::alloc::Global;
use std::test::Fail;

/// Snapshots are pushed in two levels, of which one is released.
fn push_and_pass_up(alloc: Global, savepoint: Name) -> Result<Played, StartError> {
    let commands = [
        Command::Transaction(TransactionCommand::Begin),
        Command::Work(Work::Snapshots(SnapshotCommand::Push(4))),
        Command::Transaction(TransactionCommand::Savepoint(savepoint)),
        Command::Work(Work::Snapshots(SnapshotCommand::Push(5))),
        Command::Transaction(TransactionCommand::Release(savepoint)),
        Command::Work(Work::Snapshots(SnapshotCommand::Pop)),
        Command::Work(Work::Items(ItemCommand::Reference {
            class: ReferenceClass::TupleDescriptor,
            key: 6,
        })),
        Command::Work(Work::Tells(TellCommand::Stat)),
    ];
    outcome(alloc, 0, commands.as_slice())
}

#[test]
fn active_snapshots_are_passed_up_and_popped(rt: HostRuntime) -> Result<(), Fail> {
    let savepoint = name(b"s")?;
    let played = push_and_pass_up(rt.alloc(), savepoint)?;
    let reference = item(KindId::TUPLE_DESCRIPTOR_REFERENCE, 6, 1);
    let events = [
        What::BeginLevel(1),
        create(6, top(), 1),
        What::Owner(1),
        What::Ok,
        What::Push(4),
        What::Ok,
        What::BeginLevel(2),
        create(7, level(), 6),
        owner_in(2, 1),
        What::Ok,
        What::Push(5),
        What::Ok,
        What::CommitLevel(2),
        What::OwnerGone(2),
        What::Delete(7),
        What::Ok,
        What::Pop(5),
        What::Ok,
        acquire(reference, 1),
        What::Ok,
        What::Stat(SessionCounts {
            pins: 0,
            files: 0,
            descriptors: 0,
            locks: 0,
            snapshots: 1,
            plans: 0,
            refs: 1,
            owners: 1,
            contexts: 6,
        }),
        What::Ok,
        What::AbortLevel(1),
        release(reference, 1),
        What::Pop(4),
        What::CleanupLevel(1),
        What::OwnerGone(1),
        What::Delete(6),
    ];
    assert_eq!(rt; before_exit(&played), Some(events.as_slice()));
    assert_eq!(rt; (played.depth, played.held), (1, 0));
    Ok(())
}

/// What is held is counted in a block, and behind its end.
fn count_what_is_held(alloc: Global) -> Result<Played, StartError> {
    let commands = [
        Command::Transaction(TransactionCommand::Begin),
        Command::Work(Work::Items(ItemCommand::Snapshot(4))),
        Command::Work(Work::Snapshots(SnapshotCommand::Push(4))),
        Command::Work(Work::Snapshots(SnapshotCommand::Push(5))),
        Command::Work(Work::Items(ItemCommand::Pin(7))),
        Command::Work(Work::Items(ItemCommand::Pin(7))),
        Command::Work(Work::Items(ItemCommand::Open(3))),
        Command::Work(Work::Items(ItemCommand::Reference {
            class: ReferenceClass::Catcache,
            key: 1,
        })),
        Command::Work(Work::Items(ItemCommand::Reference {
            class: ReferenceClass::Catcache,
            key: 1,
        })),
        Command::Work(Work::Locks(LockCommand::Lock {
            object: 5,
            mode: Mode::ShareLock,
        })),
        Command::Work(Work::Tells(TellCommand::Stat)),
        Command::Transaction(TransactionCommand::Commit),
        Command::Work(Work::Tells(TellCommand::Stat)),
    ];
    outcome(alloc, 0, commands.as_slice())
}

#[test]
fn what_is_held_twice_is_counted_once(rt: HostRuntime) -> Result<(), Fail> {
    let played = count_what_is_held(rt.alloc())?;
    let held = What::Stat(SessionCounts {
        pins: 1,
        files: 1,
        descriptors: 1,
        locks: 1,
        snapshots: 2,
        plans: 0,
        refs: 1,
        owners: 1,
        contexts: 6,
    });
    let nothing_held = What::Stat(SessionCounts {
        pins: 0,
        files: 0,
        descriptors: 0,
        locks: 0,
        snapshots: 0,
        plans: 0,
        refs: 0,
        owners: 1,
        contexts: 6,
    });
    assert!(rt; played.out.events().contains(&held));
    assert!(rt; played.out.events().contains(&nothing_held));
    Ok(())
}

/// What an AllocSet without a chunk has, whose only block is of this size.
fn of_one_block(total: u64) -> MemoryCounters
    requires { 240 ≤ total }
{
    MemoryCounters {
        total,
        blocks: 1,
        free: total - 240,
        chunks: 0,
    }
}

/// A block is reported.
fn report_in_block(alloc: Global) -> Result<Played, StartError> {
    let commands = [
        Command::Transaction(TransactionCommand::Begin),
        Command::Work(Work::Tells(TellCommand::Report)),
        Command::Transaction(TransactionCommand::Commit),
    ];
    outcome(alloc, 0, commands.as_slice())
}

#[test]
fn a_transaction_without_chunks_is_reported(rt: HostRuntime) -> Result<(), Fail> {
    let topmost = name(b"TopMemoryContext")?;
    let abort = name(b"TransactionAbortContext")?;
    let portals = name(b"TopPortalContext")?;
    let cache = name(b"CacheMemoryContext")?;
    let errors = name(b"ErrorContext")?;
    let played = report_in_block(rt.alloc())?;
    let events = [
        What::BeginLevel(1),
        create(6, top(), 1),
        What::Owner(1),
        What::Ok,
        What::ContextStats {
            depth: Depth::new(0),
            context: 1,
            name: topmost,
            counters: of_one_block(8192),
        },
        What::ContextStats {
            depth: Depth::new(1),
            context: 6,
            name: top(),
            counters: of_one_block(8192),
        },
        What::ContextStats {
            depth: Depth::new(1),
            context: 5,
            name: abort,
            counters: of_one_block(32768),
        },
        What::ContextStats {
            depth: Depth::new(1),
            context: 4,
            name: portals,
            counters: of_one_block(8192),
        },
        What::ContextStats {
            depth: Depth::new(1),
            context: 3,
            name: cache,
            counters: of_one_block(8192),
        },
        What::ContextStats {
            depth: Depth::new(1),
            context: 2,
            name: errors,
            counters: of_one_block(8192),
        },
        What::GrandTotal(MemoryCounters {
            total: 73728,
            blocks: 6,
            free: 72288,
            chunks: 0,
        }),
        What::Ok,
        What::CommitLevel(1),
        What::OwnerGone(1),
        What::Delete(6),
        What::Ok,
    ];
    assert_eq!(rt; before_exit(&played), Some(events.as_slice()));
    assert_eq!(rt; (played.depth, played.held), (0, 0));
    Ok(())
}
