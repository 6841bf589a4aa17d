//! `pgscript`: reads a script on standard input and writes its transcript to standard output. Where its
//! status isn't 0 a line on standard error says why.
#![tactic(auto)]

mod told;
mod watched;

ghost use Rattle.std.specs.Prelude.{◌≡◌, ◌≢◌, ℕ, [], drop, map, None, IfOk, IfErr};
ghost use Rattle.std.specs.Prelude.{string_bytes as string_text};
ghost use Rattle.addr_space.specs.Space.{accounts, held};
ghost use Rattle.pgs_step.specs.Name.{IsName};
ghost use Rattle.reset_callbacks.specs.Hook.{AreDistinct};
ghost use Rattle.reset_callbacks.specs.ShelfState as shelf_state;
ghost use Rattle.pgs_world.specs.Options.{options_of};
ghost use Rattle.std.specs.Process.{exit_status};
ghost use Rattle.std.specs.Vec.Iter.{into_iter_items};
ghost use Rattle.std.specs.IoError.{error_kind};
ghost use Rattle.std.specs.declared.io.ErrorKind.TheVariants.{OutOfMemory};
ghost use Rattle.pgs_world.specs.declared.program.Outcome.{Outcome};
ghost use Rattle.pgscript_cli.specs.Program.{Plays, fresh_hooks, the_kinds, the_shelf};

use crate::told::{NO_START, Told, is_sweep};
use crate::watched::Watched;
use addr_space::Space;
use owner_kinds::{CountedKind, KindShelf};
use pgs_io::{Sink, Source, StdSink, StdSource};
use pgs_step::{Name, Phase};
use pgs_world::{Outcome, run};
use reset_callbacks::{CountedHook, Shelf};
use std::alloc::{AllocError, Global};
use std::fmt::Display;
use std::io::IsTerminal;
use std::process::ExitCode;
use std::{env, io, mem};

/// How many accounts the space has: one for each session that a run may have.
const ACCOUNTS: u8 = 64;

/// How many hooks there are. Their words are 1, 2 and so on.
const HOOKS: u64 = 4096;

/// The status where memory was wanted before the run.
const NO_MEMORY: u8 = 5;

/// The status where an argument isn't text.
const NO_TEXT: u8 = 7;

fn main(rt: HostRuntime) -> ExitCode {
    let mut source = StdSource::new(rt.reader());
    let watches = rt.stderr().is_terminal() && asks_for_sweep(env::args(&rt));
    let mut sink = Watched::new(StdSink::new(io::writer(&rt)), watches, &rt);
    play(rt.alloc(), env::args(&rt), &mut source, &mut sink, &rt)
}

/// Plays the script of the source with the words of the command line, and answers the status of that run.
///
/// `args` are the program's name and then its words. Where they couldn't be read the status is 5 or 7, and
/// where memory is wanted for the words, the space, the hooks or the kinds it is 5; nothing is read or written then.
/// `err` is told in one line why the status isn't 0. A line that can't be written there is left out.
fn play<S: Source, K: Sink, E: Eprint>(
    alloc: Global,
    args: io::Result<env::Args>,
    src: &mut S,
    out: &mut K,
    err: &E,
) -> ExitCode
    ensures played { IfOk args (λ args. (outcome : Outcome) × (exit_status result ≡ outcome.status)
        × Plays (map string_text (drop 1 (into_iter_items args))) outcome (S.left src.old) (S.left src.new) (K.written out.old) (K.written out.new) (S.faults src.old) (S.faults src.new) (K.faults out.old) (K.faults out.new)) }
    ensures words_unread { IfOk args (λ args. options_of (map string_text (drop 1 (into_iter_items args))) ≡ None → src.new ≡ src.old) }
    ensures no_memory { IfErr args (λ error. error_kind error ≡ OutOfMemory → exit_status result ≡ 5) }
    ensures no_text { IfErr args (λ error. error_kind error ≢ OutOfMemory → exit_status result ≡ 7) }
    ensures untouched { IfErr args (λ _. (src.new ≡ src.old) × (out.new ≡ out.old)) }
{
    let args = match args {
        Ok(args) => args,
        Err(error) => return unread(error.kind(), err),
    };
    let Ok(words) = words_of(alloc, args) else {
        return no_memory(err);
    };
    let Ok(mut space) = Space::new(alloc, ACCOUNTS, 0) else {
        return no_memory(err);
    };
    let Ok(mut shelf) = all_hooks(alloc) else {
        return no_memory(err);
    };
    let Ok(mut kinds) = both_kinds(alloc) else {
        return no_memory(err);
    };
    let outcome = run(alloc, &words, src, out, &mut space, &mut shelf, &mut kinds);
    explain(err, &outcome, &words);
    let status = outcome.status;
    // Its memory goes with the process: giving back some thousand blocks one by one would take time for nothing.
    mem::forget(space);
    ExitCode::from(status)
}

/// Whether the words of the command line, which stand behind the program's name, ask for a sweep.
fn asks_for_sweep(args: io::Result<env::Args>) -> bool {
    let Ok(mut args) = args else {
        return false;
    };
    args.any(|word| is_sweep(&word))
}

/// Tells why the status of a run isn't 0.
fn explain<E: Eprint>(err: &E, outcome: &Outcome, words: &[String]) {
    if outcome.status != 0 {
        tell(err, Told { outcome, words });
    }
}

/// Writes a line on standard error, if that can be.
fn tell<E: Eprint, D: Display + Drop>(err: &E, why: D) {
    let _ = eprintln!(err; "pgscript: {why}");
}

/// All hooks, none of which has run.
fn all_hooks(alloc: Global) -> Result<Shelf<CountedHook>, AllocError>
    ensures shelf { IfOk result (λ shelf. shelf ≡ the_shelf) }
    ensures words_differ { IfOk result (λ shelf. AreDistinct (shelf_state.held shelf)) }
{
    let mut fresh = Vec::new(alloc);
    for below in 0..HOOKS {
        fresh.push(CountedHook::new(below + 1))?;
    }
    Shelf::new(alloc, fresh)
}

/// The extension kinds: `conn`, of which 4 keys are held at most, is kind 16, and `handle`, of which 8 are, kind 17. They hold none.
fn both_kinds(alloc: Global) -> Result<KindShelf<CountedKind>, AllocError>
    ensures { IfOk result (λ kinds. kinds ≡ the_kinds) }
{
    let kinds = vec![in alloc;
        CountedKind::new(alloc, name(b"conn"), Phase::BeforeLocks, 350, 4),
        CountedKind::new(alloc, name(b"handle"), Phase::AfterLocks, 250, 8),
    ]?;
    KindShelf::new(alloc, kinds)
}

/// The name that a word is.
fn name(word: &[u8]) -> Name
    requires { IsName word.now }
    ensures { result ≡ word.now }
{
    Name::new(word).unwrap()
}

/// The status where the arguments couldn't be read, which `err` is told.
fn unread<E: Eprint>(kind: io::ErrorKind, err: &E) -> ExitCode
    ensures memory { kind ≡ OutOfMemory → exit_status result ≡ 5 }
    ensures text { kind ≢ OutOfMemory → exit_status result ≡ 7 }
{
    match kind {
        io::ErrorKind::OutOfMemory => no_memory(err),
        _ => {
            tell(err, "a word of the command line isn't text");
            ExitCode::from(NO_TEXT)
        }
    }
}

/// The status where memory was wanted before the run, which `err` is told.
fn no_memory<E: Eprint>(err: &E) -> ExitCode
    ensures { exit_status result ≡ 5 }
{
    tell(err, NO_START);
    ExitCode::from(NO_MEMORY)
}

/// The words of the command line, without the program's name.
fn words_of(alloc: Global, mut args: env::Args) -> Result<Vec<String>, AllocError>
    ensures { IfOk result (λ words. words.items ≡ drop 1 (into_iter_items args)) }
{
    let mut words = Vec::new(alloc);
    let _name = args.next();
    for word in args {
        words.push(word)?;
    }
    Ok(words)
}
