//! The text of an event of each kind, names, modes, and a list of events.
use arrayvec::ArrayVec;
use pgs_step::{
    ChunkBytes, Depth, Emit, Error, Event, EventList, Item, KindId, MemoryCounters, Mode, Name,
    SessionCounts, What,
};
use pgs_text::{append_text, text, text_with};

fn item(kind: u8, key: u32, serial: u64) -> Item {
    Item {
        kind: KindId(kind),
        key,
        serial,
    }
}

// The first of these lines that is not the text in this session of the event beside it.
fn mistold<'a>(session: u8, rows: &[(What, &'a [u8])]) -> Option<&'a [u8]> {
    let mut out = ArrayVec::new();
    for (what, line) in rows {
        let event = Event {
            session,
            what: *what,
        };
        text(&event, &mut out);
        if out.as_slice() != *line {
            return Some(*line);
        }
    }
    None
}

#[test]
fn texts_of_levels_owners_and_items(rt: HostRuntime) {
    let rows: [(What, &[u8]); 11] = [
        (What::BeginLevel(1), b"1 begin level 1\n"),
        (What::CommitLevel(9), b"1 commit level 9\n"),
        (What::AbortLevel(10), b"1 abort level 10\n"),
        (
            What::CleanupLevel(4294967295),
            b"1 cleanup level 4294967295\n",
        ),
        (What::Owner(99), b"1 owner o99\n"),
        (
            What::OwnerIn {
                owner: 2,
                parent: 1,
            },
            b"1 owner o2 in o1\n",
        ),
        (
            What::MoveOwner {
                owner: 2,
                parent: 3,
            },
            b"1 owner o2 to o3\n",
        ),
        (What::OwnerGone(100), b"1 owner o100 gone\n"),
        (
            What::Acquire {
                item: item(1, 7, 12345),
                owner: 1,
            },
            b"1 acquire buffer pin 7 #12345 o1\n",
        ),
        (
            What::Release {
                item: item(4, 0, 999999),
                owner: 1000000,
            },
            b"1 release catcache list reference 0 #999999 o1000000\n",
        ),
        (
            What::NotClosed {
                item: item(8, 1000, 1),
                owner: 9999,
            },
            b"1 warning resource was not closed: file 1000 #1 o9999\n",
        ),
    ];
    assert!(rt; mistold(1, &rows) == None);
}

#[test]
fn texts_of_locks_files_snapshots_and_ends(rt: HostRuntime) {
    let rows: [(What, &[u8]); 11] = [
        (
            What::AcquireLock {
                object: 5,
                mode: Mode::AccessShareLock,
                owner: 2,
            },
            b"8 acquire lock 5 AccessShareLock o2\n",
        ),
        (
            What::ReleaseLock {
                object: 5,
                mode: Mode::ShareUpdateExclusiveLock,
                count: 3,
                owner: 2,
            },
            b"8 release lock 5 ShareUpdateExclusiveLock x3 o2\n",
        ),
        (
            What::PassLock {
                object: 5,
                mode: Mode::AccessShareLock,
                count: 2,
                from: 2,
                to: 1,
            },
            b"8 pass lock 5 AccessShareLock x2 o2 to o1\n",
        ),
        (What::DescriptorOpened(3), b"8 descriptor opened 3\n"),
        (What::DescriptorClosed(3), b"8 descriptor closed 3\n"),
        (What::Push(4), b"8 push 4\n"),
        (What::Pop(4), b"8 pop 4\n"),
        (
            What::AlreadyInTransaction,
            b"8 warning there is already a transaction in progress\n",
        ),
        (
            What::NotInTransaction,
            b"8 warning there is no transaction in progress\n",
        ),
        (What::Ok, b"8 ok\n"),
        (What::Exit, b"8 exit\n"),
    ];
    assert!(rt; mistold(8, &rows) == None);
}

#[test]
fn texts_of_contexts_and_hooks(rt: HostRuntime) {
    let Some(name) = Name::new(b"w") else {
        return;
    };
    let rows: [(What, &[u8]); 6] = [
        (
            What::Create {
                context: 7,
                name,
                parent: 1,
            },
            b"1 create c7 w in c1\n",
        ),
        (What::Reset(8), b"1 reset c8\n"),
        (What::Delete(7), b"1 delete c7\n"),
        (
            What::Move {
                context: 7,
                parent: 6,
            },
            b"1 move c7 to c6\n",
        ),
        (
            What::Hook {
                word: 1,
                context: 7,
            },
            b"1 hook 1 c7\n",
        ),
        (
            What::Callback {
                word: 4,
                context: 9,
            },
            b"1 callback 4 c9\n",
        ),
    ];
    assert!(rt; mistold(1, &rows) == None);
}

#[test]
fn texts_of_rows_bytes_and_counts(rt: HostRuntime) {
    let (Some(name), Some(bytes)) = (Name::new(b"p"), ChunkBytes::new(&[10, 255])) else {
        return;
    };
    let counts = SessionCounts {
        pins: 0,
        files: 1,
        descriptors: 2,
        locks: 3,
        snapshots: 4,
        plans: 5,
        refs: 6,
        owners: 7,
        contexts: 8,
    };
    let rows: [(What, &[u8]); 5] = [
        (
            What::Row {
                portal: name,
                row: 1,
                value: 247,
            },
            b"1 row p 1 247\n",
        ),
        (
            What::Fetched {
                portal: name,
                rows: 12,
            },
            b"1 fetched p 12\n",
        ),
        (
            What::Bytes {
                chunk: name,
                at: 3,
                bytes,
            },
            b"1 bytes p 3 0aff\n",
        ),
        (
            What::Buffer {
                buffer: 7,
                sessions: 2,
            },
            b"1 buffer 7 pinned by 2\n",
        ),
        (
            What::Stat(counts),
            b"1 stat pins 0 files 1 descriptors 2 locks 3 snapshots 4 plans 5 refs 6 owners 7 contexts 8\n",
        ),
    ];
    assert!(rt; mistold(1, &rows) == None);
}

#[test]
fn texts_of_reports(rt: HostRuntime) {
    let Some(name) = Name::new(b"TopMemoryContext") else {
        return;
    };
    let counters = MemoryCounters {
        total: 8192,
        blocks: 1,
        free: 7952,
        chunks: 0,
    };
    let more_free = MemoryCounters {
        total: 1,
        blocks: 7,
        free: 2,
        chunks: 9,
    };
    let rows: [(What, &[u8]); 4] = [
        (
            What::ContextStats {
                depth: Depth::new(0),
                context: 1,
                name,
                counters,
            },
            b"1 c1 TopMemoryContext: 8192 total in 1 blocks; 7952 free (0 chunks); 240 used\n",
        ),
        (
            What::ContextStats {
                depth: Depth::new(2),
                context: 7,
                name,
                counters: more_free,
            },
            b"1     c7 TopMemoryContext: 1 total in 7 blocks; 2 free (9 chunks); 0 used\n",
        ),
        (
            What::GrandTotal(counters),
            b"1 Grand total: 8192 bytes in 1 blocks; 7952 free (0 chunks); 240 used\n",
        ),
        (
            What::GrandTotal(more_free),
            b"1 Grand total: 1 bytes in 7 blocks; 2 free (9 chunks); 0 used\n",
        ),
    ];
    assert!(rt; mistold(1, &rows) == None);
}

#[test]
fn texts_of_errors_of_lines_and_contexts(rt: HostRuntime) {
    let rows: [(Error, &[u8]); 14] = [
        (Error::SyntaxError, b"42601 syntax error"),
        (Error::NoSuchSession, b"08003 no such session"),
        (Error::TransactionAborted, b"25P02 transaction is aborted"),
        (Error::NoTransactionBlock, b"25P01 no transaction block"),
        (Error::NoSuchSavepoint, b"3B001 no such savepoint"),
        (Error::NoSuchName, b"42704 no such name"),
        (Error::NameTaken, b"42710 name is taken"),
        (Error::ContextProtected, b"42501 context is protected"),
        (Error::ContextInUse, b"55006 context is in use"),
        (Error::ContextCycle, b"42P17 cycle of contexts"),
        (Error::TooBig, b"54000 request is too big"),
        (Error::OutOfSpace, b"53200 out of space"),
        (Error::Injected(5), b"53200 out of memory at call 5"),
        (Error::WrongChunkSize, b"22023 wrong chunk size"),
    ];
    assert!(rt; error_mistold(&rows) == None);
}

#[test]
fn texts_of_errors_of_resources_and_portals(rt: HostRuntime) {
    let rows: [(Error, &[u8]); 13] = [
        (Error::Unsupported, b"0A000 not supported by this kind"),
        (Error::OutsideChunk, b"22003 outside the chunk's bytes"),
        (Error::NoSuchBuffer, b"22023 no such buffer"),
        (Error::NotHeld, b"55000 not held by this owner"),
        (
            Error::LockHeld {
                session: 1,
                mode: Mode::AccessShareLock,
            },
            b"55P03 lock is held by session 1 as AccessShareLock",
        ),
        (Error::KindLimit, b"53400 limit of the kind is reached"),
        (Error::LimitReached, b"54000 limit is reached"),
        (Error::NoSuchPortal, b"34000 no such portal"),
        (Error::PortalTaken, b"42P03 portal is there"),
        (Error::PortalFailed, b"55000 portal has failed"),
        (Error::BadRow(3), b"22012 bad row 3"),
        (Error::Raised, b"P0001 raised"),
        (
            Error::NoMemory(18446744073709551615),
            b"53200 no memory at call 18446744073709551615",
        ),
    ];
    assert!(rt; error_mistold(&rows) == None);
}

// The first of these words that do not tell of the error beside them.
fn error_mistold<'a>(rows: &[(Error, &'a [u8])]) -> Option<&'a [u8]> {
    for (error, words) in rows {
        if !is_told(*error, words) {
            return Some(*words);
        }
    }
    None
}

// Whether the line of the error in session 2 is "2 ERROR ", these words and a newline.
fn is_told(error: Error, words: &[u8]) -> bool {
    let what = What::Error(error);
    let mut out = ArrayVec::new();
    text(&Event { session: 2, what }, &mut out);
    out.as_slice()
        .strip_prefix(b"2 ERROR ".as_slice())
        .and_then(|rest| rest.strip_suffix(b"\n".as_slice()))
        == Some(words)
}

#[test]
fn names_are_short_words_of_letters(rt: HostRuntime) {
    let are_names = [
        Name::new(b"").is_some(),
        Name::new(b"12345678901234567890123456789012").is_some(),
        Name::new(b"123456789012345678901234567890123").is_some(),
        Name::new(b"a-b").is_some(),
        Name::new(b"a_B9").is_some(),
    ];
    assert!(rt; are_names == [false, true, false, false, true]);
}

#[test]
fn modes_have_numbers_and_names(rt: HostRuntime) {
    for (mode, number, name) in [
        (Mode::AccessShareLock, 1, b"AccessShareLock".as_slice()),
        (Mode::RowShareLock, 2, b"RowShareLock".as_slice()),
        (Mode::RowExclusiveLock, 3, b"RowExclusiveLock".as_slice()),
        (
            Mode::ShareUpdateExclusiveLock,
            4,
            b"ShareUpdateExclusiveLock".as_slice(),
        ),
        (Mode::ShareLock, 5, b"ShareLock".as_slice()),
        (
            Mode::ShareRowExclusiveLock,
            6,
            b"ShareRowExclusiveLock".as_slice(),
        ),
        (Mode::ExclusiveLock, 7, b"ExclusiveLock".as_slice()),
        (
            Mode::AccessExclusiveLock,
            8,
            b"AccessExclusiveLock".as_slice(),
        ),
    ] {
        assert!(rt; mode.number() == number);
        assert!(rt; mode.name() == name);
    }
}

#[test]
fn a_list_of_events_keeps_its_room(rt: HostRuntime) {
    let mut list = EventList::new(rt.alloc(), 2).expect(&rt, "it is served");
    list.emit(What::Ok);
    list.emit(What::Exit);
    list.emit(What::Push(1));
    assert!(rt; list.events() == [What::Ok, What::Exit].as_slice());
    assert!(rt; list.missed() == 1);
}

#[test]
fn a_line_goes_behind_what_stands_there(rt: HostRuntime) {
    let mut out: ArrayVec<u8, 2048> = ArrayVec::new();
    append_text(2, &What::Ok, &[], &mut out);
    append_text(3, &What::Exit, &[], &mut out);
    assert!(rt; out.as_slice() == b"2 ok\n3 exit\n".as_slice());
}
