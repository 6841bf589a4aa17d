//! A kind that finds no memory for a key: the run ends at that call, and all sessions end.
ghost use Rattle.std.specs.Prelude.{◌≡◌, ◌≢◌, ◌≤◌, IfOk};
ghost use Rattle.reset_callbacks.specs.Hook.{AreDistinct};
ghost use Rattle.reset_callbacks.specs.ShelfState.{held};

use addr_space::Space;
use owner_kinds::{CountedKind, ExtKind, KindError, KindShelf};
use pgs_io::{MemSink, MemSource};
use pgs_step::{Name, Phase};
use pgs_world::{Outcome, run};
use reset_callbacks::{CountedHook, Shelf};
use std::alloc::{AllocError, Global};
use std::process::Abort;
use std::test::Fail;

/// A kind that finds no memory at its `refused`-th opening.
#[derive(Drop)]
struct StingyKind {
    kind: CountedKind,
    openings: u64,
    refused: u64,
}

impl ExtKind for StingyKind {
    ghost kind_meaning = { λ stingy. stingy.kind };

    fn name(&self) -> Name {
        self.kind.name()
    }

    fn phase(&self) -> Phase {
        self.kind.phase()
    }

    fn priority(&self) -> u32 {
        self.kind.priority()
    }

    fn open(&mut self, key: u32) -> Result<(), KindError> {
        self.openings = self.openings.saturating_add(1);
        if self.openings == self.refused && !self.kind.is_full() {
            return Err(KindError::Memory);
        }
        self.kind.open(key)
    }

    fn close(&mut self, key: u32) {
        self.kind.close(key);
    }
}

/// The kind `stingy`, whose first opening is refused.
fn stingy(alloc: Global) -> Result<KindShelf<StingyKind>, AllocError> {
    let name = Name::new(b"stingy").unwrap();
    let kinds = vec![in alloc;
        StingyKind {
            kind: CountedKind::new(alloc, name, Phase::BeforeLocks, 350, 4),
            openings: 0,
            refused: 1,
        },
    ]?;
    KindShelf::new(alloc, kinds)
}

/// No hooks.
fn no_hooks(alloc: Global) -> Result<Shelf<CountedHook>, AllocError>
    ensures words_differ { IfOk result (λ shelf. AreDistinct (held shelf)) }
{
    Shelf::new(alloc, Vec::new(alloc))
}

/// Plays a script with that kind, and compares what was written and how it ended.
fn compare(
    rt: &impl Abort,
    alloc: Global,
    words: &[String],
    script: &[u8],
    transcript: &[u8],
    outcome: Outcome,
) -> Result<(), AllocError> {
    let mut source = MemSource::new(Vec::from_slice(alloc, script)?, 5, Vec::new(alloc));
    let mut sink = MemSink::new(alloc, 4_096, Vec::new(alloc))?;
    let mut space = Space::new(alloc, 64, 0)?;
    let mut shelf = no_hooks(alloc)?;
    let mut kinds = stingy(alloc)?;
    let ended = run(
        alloc,
        words,
        &mut source,
        &mut sink,
        &mut space,
        &mut shelf,
        &mut kinds,
    );
    assert_eq!(rt; ended, outcome);
    assert_eq!(rt; sink.written(), transcript);
    Ok(())
}

#[test]
fn a_kind_without_memory_ends_the_run(rt: HostRuntime) -> Result<(), Fail> {
    let transcript =
        b"1 begin level 1\n1 create c6 TopTransactionContext in c1\n1 owner o1\n1 ok\n1 ERROR 53200 no memory at call 5\n1 abort level 1\n1 cleanup level 1\n1 owner o1 gone\n1 delete c6\n1 delete c5\n1 delete c4\n1 delete c3\n1 delete c2\n1 delete c1\n1 exit\n";
    compare(
        &rt,
        rt.alloc(),
        &[],
        b"begin\nacquire stingy 1\npin 3\n",
        transcript,
        Outcome {
            status: 5,
            call: 5,
            errors: 1,
            lines: 2,
        },
    )?;
    Ok(())
}
