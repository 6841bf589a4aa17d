//! The program over a source and a sink in memory.
ghost use Rattle.std.specs.Prelude.{◌≤◌, IfOk};
ghost use Rattle.reset_callbacks.specs.Hook.{AreDistinct};
ghost use Rattle.reset_callbacks.specs.ShelfState.{held};

use addr_space::Space;
use owner_kinds::{CountedKind, KindShelf};
use pgs_io::{MemSink, MemSource};
use pgs_step::{Name, Phase};
use pgs_world::{Outcome, run};
use reset_callbacks::{CountedHook, Shelf};
use std::alloc::{AllocError, Global};
use std::process::Abort;
use std::test::Fail;

/// What a run left: its outcome, how many bytes were not read, those that were written, how many bytes the space held behind it, and how many
/// hooks were fresh.
#[derive(Drop)]
struct Played {
    outcome: Outcome,
    unread: usize,
    written: Vec<u8>,
    held: u64,
    fresh: usize,
}

/// The words, as texts of their own.
fn texts(alloc: Global, words: &[&str]) -> Result<Vec<String>, AllocError> {
    let mut texts = Vec::new(alloc);
    for word in words {
        texts.push(String::from_str(alloc, word)?)?;
    }
    Ok(texts)
}

/// Six fresh hooks.
fn six_hooks(alloc: Global) -> Result<Shelf<CountedHook>, AllocError>
    ensures words_differ { IfOk result (λ shelf. AreDistinct (held shelf)) }
{
    let fresh = vec![in alloc;
        CountedHook::new(1),
        CountedHook::new(2),
        CountedHook::new(3),
        CountedHook::new(4),
        CountedHook::new(5),
        CountedHook::new(6),
    ]?;
    Shelf::new(alloc, fresh)
}

/// The kinds `conn`, of at most 4 keys, and `handle`, of at most 8.
fn two_kinds(alloc: Global) -> Result<KindShelf<CountedKind>, AllocError> {
    let conn = Name::new(b"conn").unwrap();
    let handle = Name::new(b"handle").unwrap();
    let kinds = vec![in alloc;
        CountedKind::new(alloc, conn, Phase::BeforeLocks, 350, 4),
        CountedKind::new(alloc, handle, Phase::AfterLocks, 250, 8),
    ]?;
    KindShelf::new(alloc, kinds)
}

/// A script that is read in pieces, with a read that fails; 0 is none.
fn source_of(
    alloc: Global,
    script: &[u8],
    piece: u32,
    bad_read: u64,
) -> Result<MemSource, AllocError>
    requires { 1 ≤ piece }
{
    let fail_at = vec![in alloc; bad_read]?;
    let bytes = Vec::from_slice(alloc, script)?;
    Ok(MemSource::new(bytes, piece, fail_at))
}

/// A sink with a write that fails; 0 is none.
fn sink_of(alloc: Global, bad_write: u64) -> Result<MemSink, AllocError> {
    let fail_at = vec![in alloc; bad_write]?;
    MemSink::new(alloc, 262_144, fail_at)
}

/// Runs the program in a space and with hooks and kinds of its own. Answers its outcome, how many bytes the space held behind it, and how
/// many hooks were fresh.
fn perform(
    alloc: Global,
    words: &[String],
    source: &mut MemSource,
    sink: &mut MemSink,
) -> Result<(Outcome, u64, usize), AllocError> {
    let mut space = Space::new(alloc, 64, 0)?;
    let mut shelf = six_hooks(alloc)?;
    let mut kinds = two_kinds(alloc)?;
    let outcome = run(
        alloc, words, source, sink, &mut space, &mut shelf, &mut kinds,
    );
    Ok((outcome, space.held(0), shelf.fresh()))
}

/// Plays a script that is read in pieces, with a read and a write that fail; 0 is none.
fn play(
    alloc: Global,
    words: &[&str],
    script: &[u8],
    piece: u32,
    bad_read: u64,
    bad_write: u64,
) -> Result<Played, AllocError>
    requires { 1 ≤ piece }
{
    let words = texts(alloc, words)?;
    let mut source = source_of(alloc, script, piece, bad_read)?;
    let mut sink = sink_of(alloc, bad_write)?;
    let (outcome, held, fresh) = perform(alloc, &words, &mut source, &mut sink)?;
    let written = Vec::from_slice(alloc, sink.written())?;
    Ok(Played {
        outcome,
        unread: source.unread().len(),
        written,
        held,
        fresh,
    })
}

/// Adds a line so many times.
fn add_lines(script: &mut Vec<u8>, line: &[u8], times: u32) -> Result<(), AllocError> {
    for _ in 0..times {
        script.extend_from_slice(line)?;
    }
    Ok(())
}

/// A script that begins so, with a line so many times behind it.
fn script_of(alloc: Global, first: &[u8], line: &[u8], times: u32) -> Result<Vec<u8>, AllocError> {
    let mut script = Vec::from_slice(alloc, first)?;
    add_lines(&mut script, line, times)?;
    Ok(script)
}

/// Words and a script, the transcript, and what the run answers.
#[derive(Clone, Copy)]
struct Row {
    words: &'static [&'static str],
    script: &'static [u8],
    transcript: &'static [u8],
    status: u8,
    errors: u64,
    lines: u64,
}

/// Plays a row's script and compares what it left with the row.
fn compare(rt: &impl Abort, alloc: Global, row: Row) -> Result<(), AllocError> {
    let played = play(alloc, row.words, row.script, 5, 0, 0)?;
    assert_eq!(rt; played.outcome.status, row.status);
    assert_eq!(rt;
        (
            played.outcome.call,
            played.outcome.errors,
            played.outcome.lines
        ),
        (0, row.errors, row.lines)
    );
    assert_eq!(rt; played.written.as_slice(), row.transcript);
    assert_eq!(rt; played.held, 0);
    Ok(())
}

#[test]
fn fourteen_scripts(rt: HostRuntime) -> Result<(), Fail> {
    for row in [
        Row {
            words: &[],
            script: b"",
            transcript: b"1 delete c5\n1 delete c4\n1 delete c3\n1 delete c2\n1 delete c1\n1 exit\n",
            status: 0,
            errors: 0,
            lines: 0,
        },
        Row {
            words: &[],
            script: b"begin\npin 7\ncommit\n",
            transcript: b"1 begin level 1\n1 create c6 TopTransactionContext in c1\n1 owner o1\n1 ok\n1 acquire buffer pin 7 #1 o1\n1 ok\n1 commit level 1\n1 warning resource was not closed: buffer pin 7 #1 o1\n1 release buffer pin 7 #1 o1\n1 owner o1 gone\n1 delete c6\n1 ok\n1 delete c5\n1 delete c4\n1 delete c3\n1 delete c2\n1 delete c1\n1 exit\n",
            status: 0,
            errors: 0,
            lines: 3,
        },
        Row {
            words: &[],
            script: b"begin\npin 7\nrollback\n",
            transcript: b"1 begin level 1\n1 create c6 TopTransactionContext in c1\n1 owner o1\n1 ok\n1 acquire buffer pin 7 #1 o1\n1 ok\n1 abort level 1\n1 release buffer pin 7 #1 o1\n1 cleanup level 1\n1 owner o1 gone\n1 delete c6\n1 ok\n1 delete c5\n1 delete c4\n1 delete c3\n1 delete c2\n1 delete c1\n1 exit\n",
            status: 0,
            errors: 0,
            lines: 3,
        },
        Row {
            words: &[],
            script: b"begin\npin 1024\npin 1\n",
            transcript: b"1 begin level 1\n1 create c6 TopTransactionContext in c1\n1 owner o1\n1 ok\n1 ERROR 22023 no such buffer\n1 abort level 1\n1 ERROR 25P02 transaction is aborted\n1 cleanup level 1\n1 owner o1 gone\n1 delete c6\n1 delete c5\n1 delete c4\n1 delete c3\n1 delete c2\n1 delete c1\n1 exit\n",
            status: 1,
            errors: 2,
            lines: 3,
        },
        Row {
            words: &[],
            script: b"begin\nportal p\nfetch p 0\npin 1\n@1 rollback\nrollback\n",
            transcript: b"1 begin level 1\n1 create c6 TopTransactionContext in c1\n1 owner o1\n1 ok\n1 ERROR 42601 syntax error\n1 abort level 1\n1 ERROR 42601 syntax error\n1 ERROR 25P02 transaction is aborted\n1 cleanup level 1\n1 owner o1 gone\n1 delete c6\n1 ok\n1 warning there is no transaction in progress\n1 ok\n1 delete c5\n1 delete c4\n1 delete c3\n1 delete c2\n1 delete c1\n1 exit\n",
            status: 1,
            errors: 3,
            lines: 6,
        },
        Row {
            words: &[],
            script: b"begin\ncontext p CurTransactionContext default\ncontext x p default\ncontext y p default\nonreset p\nonreset x\nonreset p\nonreset y\nonreset p\ndelete p\n",
            transcript: b"1 begin level 1\n1 create c6 TopTransactionContext in c1\n1 owner o1\n1 ok\n1 create c7 p in c6\n1 ok\n1 create c8 x in c7\n1 ok\n1 create c9 y in c7\n1 ok\n1 hook 1 c7\n1 ok\n1 hook 2 c8\n1 ok\n1 hook 3 c7\n1 ok\n1 hook 4 c9\n1 ok\n1 hook 5 c7\n1 ok\n1 callback 4 c9\n1 delete c9\n1 callback 2 c8\n1 delete c8\n1 callback 5 c7\n1 callback 3 c7\n1 callback 1 c7\n1 delete c7\n1 ok\n1 abort level 1\n1 cleanup level 1\n1 owner o1 gone\n1 delete c6\n1 delete c5\n1 delete c4\n1 delete c3\n1 delete c2\n1 delete c1\n1 exit\n",
            status: 0,
            errors: 0,
            lines: 10,
        },
        Row {
            words: &[],
            script: b"begin\nalloc a 10\nput a 0 0aFF\nalloc0 b 4\nrealloc a 100\nshow a 0 2\nshow b 0 4\nput a 3 00\n",
            transcript: b"1 begin level 1\n1 create c6 TopTransactionContext in c1\n1 owner o1\n1 ok\n1 ok\n1 ok\n1 ok\n1 ok\n1 bytes a 0 0aff\n1 ok\n1 bytes b 0 00000000\n1 ok\n1 ERROR 22003 outside the chunk's bytes\n1 abort level 1\n1 cleanup level 1\n1 owner o1 gone\n1 delete c6\n1 delete c5\n1 delete c4\n1 delete c3\n1 delete c2\n1 delete c1\n1 exit\n",
            status: 1,
            errors: 1,
            lines: 8,
        },
        Row {
            words: &[],
            script: b"pin 3\nswitch CacheMemoryContext\nraise\nbegin\ncontext w TopMemoryContext slab 64\nreparent w CurTransactionContext\nrollback\n",
            transcript: b"1 begin level 1\n1 create c6 TopTransactionContext in c1\n1 owner o1\n1 acquire buffer pin 3 #1 o1\n1 commit level 1\n1 warning resource was not closed: buffer pin 3 #1 o1\n1 release buffer pin 3 #1 o1\n1 owner o1 gone\n1 delete c6\n1 ok\n1 begin level 1\n1 create c7 TopTransactionContext in c1\n1 owner o2\n1 commit level 1\n1 owner o2 gone\n1 delete c7\n1 ok\n1 begin level 1\n1 create c8 TopTransactionContext in c1\n1 owner o3\n1 ERROR P0001 raised\n1 abort level 1\n1 cleanup level 1\n1 owner o3 gone\n1 delete c8\n1 begin level 1\n1 create c9 TopTransactionContext in c1\n1 owner o4\n1 ok\n1 create c10 w in c1\n1 ok\n1 move c10 to c9\n1 ok\n1 abort level 1\n1 cleanup level 1\n1 owner o4 gone\n1 delete c10\n1 delete c9\n1 ok\n1 delete c5\n1 delete c4\n1 delete c3\n1 delete c2\n1 delete c1\n1 exit\n",
            status: 1,
            errors: 1,
            lines: 7,
        },
        Row {
            words: &["--fail", "5"],
            script: b"begin\npin 7\nalloc a 100\n",
            transcript: b"1 begin level 1\n1 create c6 TopTransactionContext in c1\n1 owner o1\n1 ok\n1 ERROR 53200 out of memory at call 5\n1 abort level 1\n1 ERROR 25P02 transaction is aborted\n1 cleanup level 1\n1 owner o1 gone\n1 delete c6\n1 delete c5\n1 delete c4\n1 delete c3\n1 delete c2\n1 delete c1\n1 exit\n",
            status: 1,
            errors: 2,
            lines: 3,
        },
        Row {
            words: &["--space", "131072"],
            script: b"begin\nalloc a 57296\nalloc b 8193\nrollback\nbegin\n",
            transcript: b"1 begin level 1\n1 create c6 TopTransactionContext in c1\n1 owner o1\n1 ok\n1 ok\n1 ERROR 53200 out of space\n1 abort level 1\n1 cleanup level 1\n1 owner o1 gone\n1 delete c6\n1 ok\n1 begin level 1\n1 create c7 TopTransactionContext in c1\n1 owner o2\n1 ok\n1 abort level 1\n1 cleanup level 1\n1 owner o2 gone\n1 delete c7\n1 delete c5\n1 delete c4\n1 delete c3\n1 delete c2\n1 delete c1\n1 exit\n",
            status: 1,
            errors: 1,
            lines: 5,
        },
        Row {
            words: &["--sessions", "2"],
            script: b"begin\n@2 begin\n@2 pin 7\npin 8\n@2 raise\n@1 alloc a 10\nrollback\n@2 rollback\n",
            transcript: b"1 begin level 1\n1 create c6 TopTransactionContext in c1\n1 owner o1\n1 ok\n2 begin level 1\n2 create c6 TopTransactionContext in c1\n2 owner o1\n2 ok\n2 acquire buffer pin 7 #1 o1\n2 ok\n1 acquire buffer pin 8 #1 o1\n1 ok\n2 ERROR P0001 raised\n2 abort level 1\n2 release buffer pin 7 #1 o1\n1 ok\n1 abort level 1\n1 release buffer pin 8 #1 o1\n1 cleanup level 1\n1 owner o1 gone\n1 delete c6\n1 ok\n2 cleanup level 1\n2 owner o1 gone\n2 delete c6\n2 ok\n1 delete c5\n1 delete c4\n1 delete c3\n1 delete c2\n1 delete c1\n1 exit\n2 delete c5\n2 delete c4\n2 delete c3\n2 delete c2\n2 delete c1\n2 exit\n",
            status: 1,
            errors: 1,
            lines: 8,
        },
        Row {
            words: &["--sessions", "2"],
            script: b"begin\nonreset CurTransactionContext\n@2 begin\n@2 context w TopMemoryContext small\n@2 onreset w\ncommit\n@2 onreset CurTransactionContext\n",
            transcript: b"1 begin level 1\n1 create c6 TopTransactionContext in c1\n1 owner o1\n1 ok\n1 hook 1 c6\n1 ok\n2 begin level 1\n2 create c6 TopTransactionContext in c1\n2 owner o1\n2 ok\n2 create c7 w in c1\n2 ok\n2 hook 2 c7\n2 ok\n1 commit level 1\n1 owner o1 gone\n1 callback 1 c6\n1 delete c6\n1 ok\n2 hook 3 c6\n2 ok\n1 delete c5\n1 delete c4\n1 delete c3\n1 delete c2\n1 delete c1\n1 exit\n2 abort level 1\n2 cleanup level 1\n2 owner o1 gone\n2 callback 3 c6\n2 delete c6\n2 callback 2 c7\n2 delete c7\n2 delete c5\n2 delete c4\n2 delete c3\n2 delete c2\n2 delete c1\n2 exit\n",
            status: 0,
            errors: 0,
            lines: 7,
        },
        Row {
            words: &["--sessions=2"],
            script: b"@2 begin\n@3 pin 1\n@3 nonsense\n@2 # nothing\n@9 pin 1\n",
            transcript: b"2 begin level 1\n2 create c6 TopTransactionContext in c1\n2 owner o1\n2 ok\n3 ERROR 08003 no such session\n3 ERROR 42601 syntax error\n2 ERROR 42601 syntax error\n2 abort level 1\n1 ERROR 42601 syntax error\n1 delete c5\n1 delete c4\n1 delete c3\n1 delete c2\n1 delete c1\n1 exit\n2 cleanup level 1\n2 owner o1 gone\n2 delete c6\n2 delete c5\n2 delete c4\n2 delete c3\n2 delete c2\n2 delete c1\n2 exit\n",
            status: 1,
            errors: 4,
            lines: 5,
        },
        Row {
            words: &["--sessions", "2", "--fail", "7"],
            script: b"begin\n@2 begin\n@2 pin 1\nalloc a 10\n@2 pin 1\n",
            transcript: b"1 begin level 1\n1 create c6 TopTransactionContext in c1\n1 owner o1\n1 ok\n2 begin level 1\n2 create c6 TopTransactionContext in c1\n2 owner o1\n2 ok\n2 ERROR 53200 out of memory at call 7\n2 abort level 1\n1 ok\n2 ERROR 25P02 transaction is aborted\n1 abort level 1\n1 cleanup level 1\n1 owner o1 gone\n1 delete c6\n1 delete c5\n1 delete c4\n1 delete c3\n1 delete c2\n1 delete c1\n1 exit\n2 cleanup level 1\n2 owner o1 gone\n2 delete c6\n2 delete c5\n2 delete c4\n2 delete c3\n2 delete c2\n2 delete c1\n2 exit\n",
            status: 1,
            errors: 2,
            lines: 5,
        },
    ] {
        compare(&rt, rt.alloc(), row)?;
    }
    Ok(())
}

#[test]
fn a_read_that_fails(rt: HostRuntime) -> Result<(), Fail> {
    let played = play(rt.alloc(), &[], b"begin\npin 7\nro", 1, 15, 0)?;
    let wanted =
        b"1 begin level 1\n1 create c6 TopTransactionContext in c1\n1 owner o1\n1 ok\n1 acquire buffer pin 7 #1 o1\n1 ok\n1 abort level 1\n1 release buffer pin 7 #1 o1\n1 cleanup level 1\n1 owner o1 gone\n1 delete c6\n1 delete c5\n1 delete c4\n1 delete c3\n1 delete c2\n1 delete c1\n1 exit\n";
    assert_eq!(rt;
        played.outcome,
        Outcome {
            status: 3,
            call: 0,
            errors: 0,
            lines: 2
        }
    );
    assert_eq!(rt; played.written.as_slice(), wanted.as_slice());
    Ok(())
}

/// Each line is answered before the next byte is read, and nothing is read once a write has failed.
#[test]
fn each_write_fails_in_turn(rt: HostRuntime) -> Result<(), Fail> {
    let whole = play(rt.alloc(), &[], b"begin\npin 7\ncommit\n", 1, 0, 0)?;
    for (call, lines, unread) in [(1, 1, 13), (2, 2, 7), (3, 3, 0), (4, 3, 0)] {
        let played = play(rt.alloc(), &[], b"begin\npin 7\ncommit\n", 1, 0, call)?;
        assert_eq!(rt;
            (played.outcome.status, played.outcome.lines, played.unread),
            (4, lines, unread),
            "write {call}"
        );
        assert!(rt;
            whole.written.starts_with(played.written.as_slice()),
            "write {call}"
        );
    }
    Ok(())
}

#[test]
fn words_that_are_refused(rt: HostRuntime) -> Result<(), Fail> {
    let played = play(rt.alloc(), &["--sessions"], b"begin\n", 1, 0, 0)?;
    let usage =
        b"usage: pgscript [--space N] [--sessions N] [--descriptors N] [--fail N] [--generate N] [--sweep]\n";
    assert_eq!(rt;
        played.outcome,
        Outcome {
            status: 2,
            call: 0,
            errors: 0,
            lines: 0
        }
    );
    assert_eq!(rt; played.written.as_slice(), usage.as_slice());
    assert_eq!(rt; played.unread, 6);
    Ok(())
}

/// A hook that runs is handed in as spent, one that nobody asked for stays fresh.
#[test]
fn two_of_six_hooks_run(rt: HostRuntime) -> Result<(), Fail> {
    let script =
        b"begin\nonreset CurTransactionContext\ncontext w TopMemoryContext small\nonreset w\nrollback\n";
    let played = play(rt.alloc(), &[], script, 64, 0, 0)?;
    assert_eq!(rt; (played.outcome.status, played.fresh), (0, 4));
    Ok(())
}

/// With ample memory no call is refused: 200 transactions of three pins and a chunk give no status 5.
#[test]
fn plenty_of_memory(rt: HostRuntime) -> Result<(), Fail> {
    let lines = b"begin\npin 1\npin 2\nalloc a 100\ncommit\n";
    let script = script_of(rt.alloc(), b"", lines, 200)?;
    let played = play(rt.alloc(), &[], &script, 4096, 0, 0)?;
    assert_eq!(rt;
        played.outcome,
        Outcome {
            status: 0,
            call: 0,
            errors: 0,
            lines: 1000
        }
    );
    Ok(())
}

#[test]
fn rounds_are_made_in_place_of_a_script(rt: HostRuntime) -> Result<(), Fail> {
    let played = play(rt.alloc(), &["--generate", "3"], b"begin\n", 4096, 0, 0)?;
    assert_eq!(rt;
        played.outcome,
        Outcome {
            status: 0,
            call: 0,
            errors: 0,
            lines: 39
        }
    );
    let wanted = b"generated 39 lines, 241 events, 0 errors, 120 calls\n";
    assert_eq!(rt; played.written.as_slice(), wanted.as_slice());
    assert_eq!(rt; played.unread, 6);
    Ok(())
}

#[test]
fn numbers_that_cannot_be_written(rt: HostRuntime) -> Result<(), Fail> {
    let played = play(rt.alloc(), &["--generate=3"], b"", 4096, 0, 1)?;
    assert_eq!(rt;
        played.outcome,
        Outcome {
            status: 4,
            call: 0,
            errors: 0,
            lines: 39
        }
    );
    Ok(())
}

/// Each call of a script fails in turn. In its run the call's command fails, and those behind it that need the transaction.
#[test]
fn each_call_of_a_script_fails_in_turn(rt: HostRuntime) -> Result<(), Fail> {
    let script = b"begin\npin 7\nsavepoint s\nlock 5 ShareLock\nalloc a 100\nrelease s\ncommit\n";
    let told =
        b"calls 10 errors 0\nfail 1 errors 3\nfail 2 errors 3\nfail 3 errors 3\nfail 4 errors 5\nfail 5 errors 5\nfail 6 errors 4\nfail 7 errors 4\nfail 8 errors 4\nfail 9 errors 3\nfail 10 errors 2\n";
    let played = play(rt.alloc(), &["--sweep"], script, 5, 0, 0)?;
    assert_eq!(rt;
        played.outcome,
        Outcome {
            status: 1,
            call: 0,
            errors: 36,
            lines: 0
        }
    );
    assert_eq!(rt; played.written.as_slice(), told.as_slice());
    assert_eq!(rt; played.held, 0);
    Ok(())
}

/// A read gives 512 bytes, which have 85 whole lines. All that they say is handed on before the next read.
#[test]
fn a_first_write_that_fails_behind_many_lines(rt: HostRuntime) -> Result<(), Fail> {
    let script = script_of(rt.alloc(), b"begin\n", b"pin 7\n", 400)?;
    let played = play(rt.alloc(), &[], &script, 4096, 0, 1)?;
    assert_eq!(rt;
        played.outcome,
        Outcome {
            status: 4,
            call: 0,
            errors: 0,
            lines: 85
        }
    );
    assert!(rt; played.written.is_empty());
    Ok(())
}

/// How many lines a script of `begin`, `pin 7` and `commit` has given before its n-th byte is read.
#[test]
fn each_read_fails_in_turn(rt: HostRuntime) -> Result<(), Fail> {
    for (call, lines) in [(1, 0), (6, 0), (7, 1), (12, 1), (13, 2), (19, 2), (20, 3)] {
        let played = play(rt.alloc(), &[], b"begin\npin 7\ncommit\n", 1, call, 0)?;
        assert_eq!(rt;
            (played.outcome.status, played.outcome.lines),
            (3, lines),
            "read {call}"
        );
    }
    Ok(())
}
