//! Each line of the table once, and lines that are nearly one.
use pgs_command::{
    BadLine, ChunkCommand, Command, ContextCommand, ContextKind, HexBytes, ItemCommand, Line,
    LockCommand, PlanCommand, PortalCommand, ReferenceClass, SnapshotCommand, TellCommand,
    TransactionCommand, Work, parse_line,
};
use pgs_step::{ChunkBytes, Mode, Name};
use std::process::Abort;

fn name(rt: &impl Abort, text: &[u8]) -> Name {
    Name::new(text).expect(rt, "a name")
}

fn bytes<'a>(rt: &impl Abort, digits: &'a [u8]) -> HexBytes<'a> {
    HexBytes::new(digits).expect(rt, "pairs of digits")
}

/// The bytes that a line writes.
fn written(line: &[u8]) -> Option<ChunkBytes> {
    match parse_line(line, false) {
        Ok(
            Line {
                command: Command::Work(Work::Chunks(ChunkCommand::Put { bytes, .. })),
                ..
            },
        ) => Some(bytes.decoded()),
        _ => None,
    }
}

/// The first of these lines that session 1 is not to perform as the command beside it says.
fn misread<'a>(rows: &[(&'a [u8], Command<'_>)]) -> Option<&'a [u8]> {
    for (line, command) in rows {
        if !is_read(1, line, command) {
            return Some(*line);
        }
    }
    None
}

/// Whether this session is to perform the command.
fn is_read(performer: u8, line: &[u8], wanted: &Command<'_>) -> bool {
    match parse_line(line, false) {
        Ok(Line { session, command }) => session == performer && command == *wanted,
        Err(_) => false,
    }
}

#[test]
fn transactions_are_read(rt: HostRuntime) {
    let s_1 = name(&rt, b"s_1");
    let upper = name(&rt, b"S");
    let s = name(&rt, b"s");
    let rows: [(&[u8], Command<'_>); 9] = [
        (b"begin", Command::Transaction(TransactionCommand::Begin)),
        (b"commit", Command::Transaction(TransactionCommand::Commit)),
        (
            b"rollback",
            Command::Transaction(TransactionCommand::Rollback),
        ),
        (
            b"savepoint s_1",
            Command::Transaction(TransactionCommand::Savepoint(s_1)),
        ),
        (
            b"release S",
            Command::Transaction(TransactionCommand::Release(upper)),
        ),
        (
            b"rollback to s",
            Command::Transaction(TransactionCommand::RollbackTo(s)),
        ),
        (b"raise", Command::Work(Work::Raise)),
        (b"report", Command::Work(Work::Tells(TellCommand::Report))),
        (b"stat", Command::Work(Work::Tells(TellCommand::Stat))),
    ];
    assert!(rt; misread(&rows) == None);
}

#[test]
fn contexts_are_read(rt: HostRuntime) {
    let w = name(&rt, b"w");
    let current = name(&rt, b"CurTransactionContext");
    let p = name(&rt, b"p");
    let rows: [(&[u8], Command<'_>); 12] = [
        (
            b"context w CurTransactionContext default",
            Command::Work(Work::Contexts(ContextCommand::Create {
                name: w,
                parent: current,
                kind: ContextKind::Default,
            })),
        ),
        (
            b"context w p small",
            Command::Work(Work::Contexts(ContextCommand::Create {
                name: w,
                parent: p,
                kind: ContextKind::Small,
            })),
        ),
        (
            b"context w p slab 1024",
            Command::Work(Work::Contexts(ContextCommand::Create {
                name: w,
                parent: p,
                kind: ContextKind::Slab(1024),
            })),
        ),
        (
            b"context w p generation",
            Command::Work(Work::Contexts(ContextCommand::Create {
                name: w,
                parent: p,
                kind: ContextKind::Generation,
            })),
        ),
        (
            b"context w p bump",
            Command::Work(Work::Contexts(ContextCommand::Create {
                name: w,
                parent: p,
                kind: ContextKind::Bump,
            })),
        ),
        (
            b"switch w",
            Command::Work(Work::Contexts(ContextCommand::Switch(w))),
        ),
        (
            b"onreset w",
            Command::Work(Work::Contexts(ContextCommand::OnReset(w))),
        ),
        (
            b"reset w",
            Command::Work(Work::Contexts(ContextCommand::Reset(w))),
        ),
        (
            b"resetonly w",
            Command::Work(Work::Contexts(ContextCommand::ResetOnly(w))),
        ),
        (
            b"delete w",
            Command::Work(Work::Contexts(ContextCommand::Delete(w))),
        ),
        (
            b"deletechildren w",
            Command::Work(Work::Contexts(ContextCommand::DeleteChildren(w))),
        ),
        (
            b"reparent w p",
            Command::Work(Work::Contexts(ContextCommand::Reparent { name: w, parent: p })),
        ),
    ];
    assert!(rt; misread(&rows) == None);
}

#[test]
fn chunks_are_read(rt: HostRuntime) {
    let a = name(&rt, b"a");
    let rows: [(&[u8], Command<'_>); 6] = [
        (
            b"alloc a 100",
            Command::Work(Work::Chunks(ChunkCommand::Alloc {
                chunk: a,
                size: 100,
            })),
        ),
        (
            b"alloc0 a 0",
            Command::Work(Work::Chunks(ChunkCommand::AllocZeroed { chunk: a, size: 0 })),
        ),
        (
            b"realloc a 4294967295",
            Command::Work(Work::Chunks(ChunkCommand::Realloc {
                chunk: a,
                size: 4294967295,
            })),
        ),
        (
            b"free a",
            Command::Work(Work::Chunks(ChunkCommand::Free(a))),
        ),
        (
            b"put a 10 0aFF",
            Command::Work(Work::Chunks(ChunkCommand::Put {
                chunk: a,
                at: 10,
                bytes: bytes(&rt, b"0aFF"),
            })),
        ),
        (
            b"show a 0 128",
            Command::Work(Work::Chunks(ChunkCommand::Show {
                chunk: a,
                at: 0,
                length: 128,
            })),
        ),
    ];
    assert!(rt; misread(&rows) == None);
    assert!(rt; written(b"put a 10 0aFF") == ChunkBytes::new(&[10, 255]));
}

#[test]
fn resources_are_read(rt: HostRuntime) {
    let conn = name(&rt, b"conn");
    let rows: [(&[u8], Command<'_>); 14] = [
        (b"pin 7", Command::Work(Work::Items(ItemCommand::Pin(7)))),
        (
            b"unpin 2000",
            Command::Work(Work::Items(ItemCommand::Unpin(2000))),
        ),
        (
            b"buffer 7",
            Command::Work(Work::Tells(TellCommand::Buffer(7))),
        ),
        (b"open 3", Command::Work(Work::Items(ItemCommand::Open(3)))),
        (
            b"touch 3",
            Command::Work(Work::Items(ItemCommand::Touch(3))),
        ),
        (
            b"close 3",
            Command::Work(Work::Items(ItemCommand::Close(3))),
        ),
        (
            b"lock 5 AccessShareLock",
            Command::Work(Work::Locks(LockCommand::Lock {
                object: 5,
                mode: Mode::AccessShareLock,
            })),
        ),
        (
            b"unlock 5 AccessExclusiveLock",
            Command::Work(Work::Locks(LockCommand::Unlock {
                object: 5,
                mode: Mode::AccessExclusiveLock,
            })),
        ),
        (
            b"ref relcache 9",
            Command::Work(Work::Items(ItemCommand::Reference {
                class: ReferenceClass::Relcache,
                key: 9,
            })),
        ),
        (
            b"unref catcache 9",
            Command::Work(Work::Items(ItemCommand::Unreference {
                class: ReferenceClass::Catcache,
                key: 9,
            })),
        ),
        (
            b"ref catlist 9",
            Command::Work(Work::Items(ItemCommand::Reference {
                class: ReferenceClass::CatcacheList,
                key: 9,
            })),
        ),
        (
            b"ref tupdesc 9",
            Command::Work(Work::Items(ItemCommand::Reference {
                class: ReferenceClass::TupleDescriptor,
                key: 9,
            })),
        ),
        (
            b"acquire conn 4",
            Command::Work(Work::Items(ItemCommand::Acquire { kind: conn, key: 4 })),
        ),
        (
            b"drop conn 4",
            Command::Work(Work::Items(ItemCommand::Drop { kind: conn, key: 4 })),
        ),
    ];
    assert!(rt; misread(&rows) == None);
}

#[test]
fn snapshots_plans_and_portals_are_read(rt: HostRuntime) {
    let p = name(&rt, b"p");
    let rows: [(&[u8], Command<'_>); 12] = [
        (
            b"snapshot 4",
            Command::Work(Work::Items(ItemCommand::Snapshot(4))),
        ),
        (
            b"unsnapshot 4",
            Command::Work(Work::Items(ItemCommand::Unsnapshot(4))),
        ),
        (
            b"push 4",
            Command::Work(Work::Snapshots(SnapshotCommand::Push(4))),
        ),
        (b"pop", Command::Work(Work::Snapshots(SnapshotCommand::Pop))),
        (
            b"plan 4",
            Command::Work(Work::Plans(PlanCommand::Create(4))),
        ),
        (
            b"planref 4",
            Command::Work(Work::Plans(PlanCommand::Reference(4))),
        ),
        (
            b"planunref 4",
            Command::Work(Work::Plans(PlanCommand::Unreference(4))),
        ),
        (
            b"plandrop 4",
            Command::Work(Work::Plans(PlanCommand::Drop(4))),
        ),
        (
            b"portal p 1000000 25",
            Command::Work(Work::Portals(PortalCommand::Open {
                name: p,
                object: 1000000,
                rows: 25,
                bad: None,
            })),
        ),
        (
            b"portal p 7 25 0",
            Command::Work(Work::Portals(PortalCommand::Open {
                name: p,
                object: 7,
                rows: 25,
                bad: Some(0),
            })),
        ),
        (
            b"fetch p 1000000",
            Command::Work(Work::Portals(PortalCommand::Fetch {
                name: p,
                count: 1000000,
            })),
        ),
        (
            b"endportal p",
            Command::Work(Work::Portals(PortalCommand::End(p))),
        ),
    ];
    assert!(rt; misread(&rows) == None);
}

#[test]
fn a_prefix_names_the_session(rt: HostRuntime) {
    let pin = Command::Work(Work::Items(ItemCommand::Pin(7)));
    let read = [
        is_read(1, b"pin 7", &pin),
        is_read(1, b"@1 pin 7", &pin),
        is_read(8, b"@8 pin 7", &pin),
    ];
    assert!(rt; read == [true; 3]);
}
