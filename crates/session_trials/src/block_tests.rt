//! What whole sessions say, from their start to their exit.
ghost use Rattle.std.specs.Prelude.{length, IfOk};
ghost use Rattle.pgs_command.specs.Ranges.{IsBetween};

use crate::saying::{
    acquire, before_exit, create, item, level, name, not_closed, owner_in, release, top,
};
use crate::{Played, outcome, outcome_over};
use pgs_command::{
    ChunkCommand, Command, ContextCommand, ContextKind, HexBytes, ItemCommand, LockCommand,
    ReferenceClass, TransactionCommand, Work,
};
use pgs_step::{ChunkBytes, Error, Item, KindId, Mode, Name, What};
use session_core::StartError;
use std::alloc::Global;
use std::test::Fail;

fn bytes(text: &[u8]) -> Result<ChunkBytes, Fail> {
    Ok(ChunkBytes::new(text).ok_or("too many bytes")?)
}

fn digits(text: &[u8]) -> Result<HexBytes<'_>, Fail>
    ensures { IfOk result (λ bytes. IsBetween 1 128 (length bytes)) }
{
    Ok(HexBytes::new(text).ok_or("no pairs of digits")?)
}

/// A block commits with a pin.
fn commit_with_pin(alloc: Global) -> Result<Played, StartError> {
    let commands = [
        Command::Transaction(TransactionCommand::Begin),
        Command::Work(Work::Items(ItemCommand::Pin(7))),
        Command::Transaction(TransactionCommand::Commit),
    ];
    outcome(alloc, 0, commands.as_slice())
}

#[test]
fn a_block_with_a_pin_commits(rt: HostRuntime) -> Result<(), Fail> {
    let played = commit_with_pin(rt.alloc())?;
    let pin = item(KindId::BUFFER_PIN, 7, 1);
    let events = [
        What::BeginLevel(1),
        create(6, top(), 1),
        What::Owner(1),
        What::Ok,
        acquire(pin, 1),
        What::Ok,
        What::CommitLevel(1),
        not_closed(pin, 1),
        release(pin, 1),
        What::OwnerGone(1),
        What::Delete(6),
        What::Ok,
    ];
    assert_eq!(rt; before_exit(&played), Some(events.as_slice()));
    assert_eq!(rt; (played.depth, played.held), (0, 0));
    Ok(())
}

/// A block commits with a context of its own, in which bytes of a chunk are written and shown, and a hook waits.
fn commit_with_context(alloc: Global, context: Name, chunk: Name) -> Result<Played, Fail> {
    let written = digits(b"0102")?;
    let commands = [
        Command::Transaction(TransactionCommand::Begin),
        Command::Work(Work::Contexts(ContextCommand::Create {
            name: context,
            parent: top(),
            kind: ContextKind::Small,
        })),
        Command::Work(Work::Contexts(ContextCommand::Switch(context))),
        Command::Work(Work::Chunks(ChunkCommand::AllocZeroed { chunk, size: 16 })),
        Command::Work(Work::Chunks(ChunkCommand::Put {
            chunk,
            at: 3,
            bytes: written,
        })),
        Command::Work(Work::Chunks(ChunkCommand::Show {
            chunk,
            at: 2,
            length: 4,
        })),
        Command::Work(Work::Contexts(ContextCommand::OnReset(context))),
        Command::Transaction(TransactionCommand::Commit),
    ];
    Ok(outcome(alloc, 0, commands.as_slice())?)
}

#[test]
fn a_context_goes_with_its_block(rt: HostRuntime) -> Result<(), Fail> {
    let context = name(b"c")?;
    let chunk = name(b"a")?;
    let shown = bytes(&[0, 1, 2, 0])?;
    let played = commit_with_context(rt.alloc(), context, chunk)?;
    let events = [
        What::BeginLevel(1),
        create(6, top(), 1),
        What::Owner(1),
        What::Ok,
        create(7, context, 6),
        What::Ok,
        What::Ok,
        What::Ok,
        What::Ok,
        What::Bytes {
            chunk,
            at: 2,
            bytes: shown,
        },
        What::Ok,
        What::Hook {
            word: 1,
            context: 7,
        },
        What::Ok,
        What::CommitLevel(1),
        What::OwnerGone(1),
        What::Callback {
            word: 1,
            context: 7,
        },
        What::Delete(7),
        What::Delete(6),
        What::Ok,
    ];
    assert_eq!(rt; before_exit(&played), Some(events.as_slice()));
    assert_eq!(rt; (played.depth, played.held), (0, 0));
    Ok(())
}

/// A block commits that shows a chunk of zeros, of which two bytes were written in place.
fn written_in_place(alloc: Global, chunk: Name) -> Result<Option<Played>, StartError> {
    let before = [
        Command::Transaction(TransactionCommand::Begin),
        Command::Work(Work::Chunks(ChunkCommand::AllocZeroed { chunk, size: 16 })),
    ];
    let behind = [
        Command::Work(Work::Chunks(ChunkCommand::Show {
            chunk,
            at: 0,
            length: 4,
        })),
        Command::Transaction(TransactionCommand::Commit),
    ];
    let place = 1;
    let over = [170, 85];
    outcome_over(
        alloc,
        before.as_slice(),
        &chunk,
        place,
        over.as_slice(),
        behind.as_slice(),
    )
}

#[test]
fn bytes_written_in_place_are_shown(rt: HostRuntime) -> Result<(), Fail> {
    let chunk = name(b"a")?;
    let shown = bytes(&[0, 170, 85, 0])?;
    let played = written_in_place(rt.alloc(), chunk)?.ok_or("no known bytes")?;
    let events = [
        What::BeginLevel(1),
        create(6, top(), 1),
        What::Owner(1),
        What::Ok,
        What::Ok,
        What::Bytes {
            chunk,
            at: 0,
            bytes: shown,
        },
        What::Ok,
        What::CommitLevel(1),
        What::OwnerGone(1),
        What::Delete(6),
        What::Ok,
    ];
    assert_eq!(rt; before_exit(&played), Some(events.as_slice()));
    assert_eq!(rt; (played.depth, played.held), (0, 0));
    Ok(())
}

/// An error is raised in a block, and a command refused behind it.
fn raise_in_block(alloc: Global) -> Result<Played, StartError> {
    let commands = [
        Command::Transaction(TransactionCommand::Begin),
        Command::Work(Work::Raise),
        Command::Work(Work::Items(ItemCommand::Pin(1))),
        Command::Transaction(TransactionCommand::Rollback),
    ];
    outcome(alloc, 0, commands.as_slice())
}

#[test]
fn an_error_aborts_the_block(rt: HostRuntime) -> Result<(), Fail> {
    let played = raise_in_block(rt.alloc())?;
    let events = [
        What::BeginLevel(1),
        create(6, top(), 1),
        What::Owner(1),
        What::Ok,
        What::Error(Error::Raised),
        What::AbortLevel(1),
        What::Error(Error::TransactionAborted),
        What::CleanupLevel(1),
        What::OwnerGone(1),
        What::Delete(6),
        What::Ok,
    ];
    assert_eq!(rt; before_exit(&played), Some(events.as_slice()));
    assert_eq!(rt; (played.depth, played.held), (0, 0));
    Ok(())
}

/// The call of a block's pin fails.
fn fail_in_block(alloc: Global) -> Result<Played, StartError> {
    let commands = [
        Command::Transaction(TransactionCommand::Begin),
        Command::Work(Work::Items(ItemCommand::Pin(7))),
    ];
    outcome(alloc, 5, commands.as_slice())
}

#[test]
fn a_call_fails_in_the_block(rt: HostRuntime) -> Result<(), Fail> {
    let played = fail_in_block(rt.alloc())?;
    let events = [
        What::BeginLevel(1),
        create(6, top(), 1),
        What::Owner(1),
        What::Ok,
        What::Error(Error::Injected(5)),
        What::AbortLevel(1),
        What::CleanupLevel(1),
        What::OwnerGone(1),
        What::Delete(6),
    ];
    assert_eq!(rt; before_exit(&played), Some(events.as_slice()));
    assert_eq!(rt; (played.depth, played.held), (1, 0));
    Ok(())
}

/// Pins and references are taken and given back, and at last one that nobody has.
fn give_back(alloc: Global) -> Result<Played, StartError> {
    let commands = [
        Command::Transaction(TransactionCommand::Begin),
        Command::Work(Work::Items(ItemCommand::Pin(7))),
        Command::Work(Work::Items(ItemCommand::Pin(7))),
        Command::Work(Work::Items(ItemCommand::Reference {
            class: ReferenceClass::Relcache,
            key: 7,
        })),
        Command::Work(Work::Items(ItemCommand::Unpin(7))),
        Command::Work(Work::Items(ItemCommand::Unreference {
            class: ReferenceClass::Relcache,
            key: 7,
        })),
        Command::Work(Work::Items(ItemCommand::Reference {
            class: ReferenceClass::TupleDescriptor,
            key: 9,
        })),
        Command::Work(Work::Items(ItemCommand::Unpin(8))),
        Command::Transaction(TransactionCommand::Rollback),
    ];
    outcome(alloc, 0, commands.as_slice())
}

/// A block returns to a savepoint behind an error, and then names another one.
fn return_to_savepoint(alloc: Global, savepoint: Name, other: Name) -> Result<Played, StartError> {
    let commands = [
        Command::Transaction(TransactionCommand::Begin),
        Command::Transaction(TransactionCommand::Savepoint(savepoint)),
        Command::Work(Work::Items(ItemCommand::Pin(3))),
        Command::Work(Work::Raise),
        Command::Transaction(TransactionCommand::RollbackTo(savepoint)),
        Command::Transaction(TransactionCommand::Release(other)),
    ];
    outcome(alloc, 0, commands.as_slice())
}

#[test]
fn a_savepoint_is_returned_to(rt: HostRuntime) -> Result<(), Fail> {
    let savepoint = name(b"s")?;
    let other = name(b"t")?;
    let played = return_to_savepoint(rt.alloc(), savepoint, other)?;
    let pin = item(KindId::BUFFER_PIN, 3, 1);
    let events = [
        What::BeginLevel(1),
        create(6, top(), 1),
        What::Owner(1),
        What::Ok,
        What::BeginLevel(2),
        create(7, level(), 6),
        owner_in(2, 1),
        What::Ok,
        acquire(pin, 2),
        What::Ok,
        What::Error(Error::Raised),
        What::AbortLevel(2),
        release(pin, 2),
        What::CleanupLevel(2),
        What::OwnerGone(2),
        What::Delete(7),
        What::BeginLevel(2),
        create(8, level(), 6),
        owner_in(3, 1),
        What::Ok,
        What::Error(Error::NoSuchSavepoint),
        What::AbortLevel(2),
        What::CleanupLevel(2),
        What::OwnerGone(3),
        What::Delete(8),
        What::AbortLevel(1),
        What::CleanupLevel(1),
        What::OwnerGone(1),
        What::Delete(6),
    ];
    assert_eq!(rt; before_exit(&played), Some(events.as_slice()));
    assert_eq!(rt; (played.depth, played.held), (2, 0));
    Ok(())
}

fn file(file: u32, serial: u64) -> Item {
    Item {
        kind: KindId::FILE,
        key: file,
        serial,
    }
}

/// A block commits with a key of one kind, and has given back that of another one.
fn commit_with_keys(alloc: Global, conn: Name, handle: Name) -> Result<Played, StartError> {
    let commands = [
        Command::Transaction(TransactionCommand::Begin),
        Command::Work(Work::Items(ItemCommand::Acquire { kind: conn, key: 5 })),
        Command::Work(Work::Items(ItemCommand::Acquire {
            kind: handle,
            key: 9,
        })),
        Command::Work(Work::Items(ItemCommand::Drop { kind: conn, key: 5 })),
        Command::Transaction(TransactionCommand::Commit),
    ];
    outcome(alloc, 0, commands.as_slice())
}

#[test]
fn a_kind_gives_its_keys_back(rt: HostRuntime) -> Result<(), Fail> {
    let conn = name(b"conn")?;
    let handle = name(b"handle")?;
    let played = commit_with_keys(rt.alloc(), conn, handle)?;
    let first = item(KindId(16), 5, 1);
    let second = item(KindId(17), 9, 2);
    let events = [
        What::BeginLevel(1),
        create(6, top(), 1),
        What::Owner(1),
        What::Ok,
        acquire(first, 1),
        What::Ok,
        acquire(second, 1),
        What::Ok,
        release(first, 1),
        What::Ok,
        What::CommitLevel(1),
        not_closed(second, 1),
        release(second, 1),
        What::OwnerGone(1),
        What::Delete(6),
        What::Ok,
    ];
    assert_eq!(rt; before_exit(&played), Some(events.as_slice()));
    assert_eq!(rt; (played.depth, played.held), (0, 0));
    Ok(())
}

/// A lock is taken three times and given back once, and its block commits.
fn commit_with_locks(alloc: Global, object: u32, mode: Mode) -> Result<Played, StartError> {
    let commands = [
        Command::Transaction(TransactionCommand::Begin),
        Command::Work(Work::Locks(LockCommand::Lock { object, mode })),
        Command::Work(Work::Locks(LockCommand::Lock { object, mode })),
        Command::Work(Work::Locks(LockCommand::Lock { object, mode })),
        Command::Work(Work::Locks(LockCommand::Unlock { object, mode })),
        Command::Transaction(TransactionCommand::Commit),
    ];
    outcome(alloc, 0, commands.as_slice())
}

fn lock(object: u32, mode: Mode) -> What {
    What::AcquireLock {
        object,
        mode,
        owner: 1,
    }
}

#[test]
fn locks_are_released_at_commit(rt: HostRuntime) -> Result<(), Fail> {
    let object = 5;
    let mode = Mode::AccessShareLock;
    let played = commit_with_locks(rt.alloc(), object, mode)?;
    let events = [
        What::BeginLevel(1),
        create(6, top(), 1),
        What::Owner(1),
        What::Ok,
        lock(object, mode),
        What::Ok,
        lock(object, mode),
        What::Ok,
        lock(object, mode),
        What::Ok,
        What::ReleaseLock {
            object,
            mode,
            count: 1,
            owner: 1,
        },
        What::Ok,
        What::CommitLevel(1),
        What::ReleaseLock {
            object,
            mode,
            count: 2,
            owner: 1,
        },
        What::OwnerGone(1),
        What::Delete(6),
        What::Ok,
    ];
    assert_eq!(rt; before_exit(&played), Some(events.as_slice()));
    assert_eq!(rt; (played.depth, played.held), (0, 0));
    Ok(())
}
