//! The lines of the script that is made, as what they ask for.
ghost use Rattle.std.specs.Prelude.{◌≡◌, ◌∷◌, ◌<◌, ◌≤◌, IsTrue, decimal, Some, IfSome};
ghost use Rattle.pgs_step.specs.Name.{IsName, is_name_byte};
ghost use Rattle.pgs_command.specs.Ranges.{IsInRange, IsSession};
ghost use Rattle.pgs_turns.specs.Made.{asked_at, read_at, says};

use crate::Said;
use crate::pieces::put_counted;
use arrayvec::ArrayVec;
use pgs_command::{
    ChunkCommand, Command, ContextCommand, ContextKind, ItemCommand, LockCommand, PortalCommand,
    ReferenceClass, TransactionCommand, Work,
};
use pgs_step::{Mode, Name};

/// The shared buffers of a server.
const BUFFERS: u32 = 1024;

/// How many lines each round has.
pub(crate) const LINES: u32 = 13;

/// What the line at this place of a round asks for. Rounds count from 1, and places from 0.
pub(crate) fn made_command(round: u32, place: u32) -> Said<'static>
    requires round { round ≤ 10000 }
    requires place { place < 13 }
    ensures asked { asked_at round place ≡ Some result }
    ensures session { IsSession result.session }
    ensures in_range { IfSome result.command IsInRange }
{
    Said {
        session: 1,
        command: Some(command_at(round, place)),
    }
}

/// The command of the line at this place of a round.
#[tactic(auto, using(crate::proofs::LineLemmas::lines_read))]
fn command_at(round: u32, place: u32) -> Command<'static>
    requires round { round ≤ 10000 }
    requires place { place < 13 }
    ensures read { read_at round place ≡ Some (says result) }
    ensures in_range { IsInRange result }
{
    match place {
        0 => Command::Transaction(TransactionCommand::Begin),
        1 => Command::Work(Work::Contexts(ContextCommand::Create {
            name: numbered(b'g', round),
            parent: name(b"CurTransactionContext"),
            kind: ContextKind::Default,
        })),
        2 => Command::Work(Work::Contexts(ContextCommand::Switch(numbered(b'g', round)))),
        3 => Command::Work(Work::Chunks(ChunkCommand::Alloc {
            chunk: numbered(b'a', round),
            size: 733 * round % 9000,
        })),
        4 => Command::Work(Work::Items(ItemCommand::Pin(7 * round % BUFFERS))),
        5 => Command::Transaction(TransactionCommand::Savepoint(name(b"s"))),
        6 => Command::Work(Work::Locks(LockCommand::Lock {
            object: round % 64,
            mode: Mode::AccessShareLock,
        })),
        7 => Command::Work(Work::Items(ItemCommand::Reference {
            class: ReferenceClass::Relcache,
            key: round % 100,
        })),
        8 if round % 2 == 1 => Command::Transaction(TransactionCommand::Release(name(b"s"))),
        8 => Command::Transaction(TransactionCommand::RollbackTo(name(b"s"))),
        9 => Command::Work(Work::Portals(PortalCommand::Open {
            name: name(b"p"),
            object: round % 512,
            rows: 25,
            bad: None,
        })),
        10 => Command::Work(Work::Portals(PortalCommand::Fetch {
            name: name(b"p"),
            count: 12,
        })),
        11 => Command::Work(Work::Portals(PortalCommand::End(name(b"p")))),
        _ if round % 3 == 0 => Command::Transaction(TransactionCommand::Rollback),
        _ => Command::Transaction(TransactionCommand::Commit),
    }
}

/// The name that a letter and a round's number are.
#[tactic(auto, using(crate::proofs::WordLemmas::is_numbered_name))]
fn numbered(letter: u8, round: u32) -> Name
    requires letter { IsTrue (is_name_byte letter) }
    requires round { round ≤ 10000 }
    ensures { result ≡ letter ∷ decimal round }
{
    let mut word: ArrayVec<u8, 32> = ArrayVec::new();
    put_counted(&mut word, &[letter], round as u64);
    name(word.as_slice())
}

/// The name that a word is.
fn name(word: &[u8]) -> Name
    requires { IsName word.now }
    ensures { result ≡ word.now }
{
    match Name::new(word) {
        Some(name) => name,
        None => unreachable!(),
    }
}
