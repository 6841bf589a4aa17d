//! Contexts of a session are made and deleted, and chunks with names are taken and freed.
ghost use Rattle.std.specs.Prelude.{◌≡◌, IfOk};
ghost use Rattle.reset_callbacks.specs.Hook.{AreDistinct};
ghost use Rattle.reset_callbacks.specs.ShelfState.{held};
ghost use Rattle.context_trials.specs.Standing.{Stands};

use any_ctx::CtxKind;
use context_node::own_name;
use context_rules::TreeError;
use context_trials::{At, Trial};
use reset_callbacks::{CountedHook, Shelf};
use std::alloc::{AllocError, Global};

/// What is done.
#[derive(Clone, Copy)]
enum Work {
    Default,
    Small,
    Chunk,
    Chain,
}

/// What a word names.
fn work_of(word: &str) -> Option<Work> {
    match word {
        "default" => Some(Work::Default),
        "small" => Some(Work::Small),
        "chunk" => Some(Work::Chunk),
        "chain" => Some(Work::Chain),
        _ => None,
    }
}

/// A shelf without hooks.
fn no_hooks(alloc: Global) -> Result<Shelf<CountedHook>, AllocError>
    ensures words { IfOk result (λ shelf. AreDistinct (held shelf)) }
    ensures out { IfOk result (λ shelf. shelf.out ≡ 0) }
{
    Shelf::new(alloc, Vec::new(alloc))
}

/// What a line asks for.
#[derive(Clone, Copy)]
pub(crate) struct Plan {
    work: Work,
    live: u32,
    times: u32,
}

impl Plan {
    pub(crate) fn parse(line: &str) -> Option<Plan> {
        let mut words = line.split(' ');
        if words.next()? != "contexts" {
            return None;
        }
        let work = work_of(words.next()?)?;
        let live = words.next()?.parse().ok()?;
        let times = words.next()?.parse().ok()?;
        Some(Plan { work, live, times })
    }

    /// Does it once, below the context `p`.
    fn turn(self, trial: &mut Trial) -> Result<(), TreeError>
        requires { Stands trial.old }
        ensures { Stands trial.new }
    {
        let p = At::Named(own_name(b"p"));
        let x = own_name(b"x");
        match self.work {
            Work::Default => {
                trial.create(p, x, CtxKind::Default)?;
                trial.delete(At::Named(x))
            }
            Work::Small => {
                trial.create(p, x, CtxKind::Small)?;
                trial.delete(At::Named(x))
            }
            Work::Chunk => {
                trial.alloc(p, x, 100)?;
                trial.free(&x)
            }
            Work::Chain => {
                trial.create(p, x, CtxKind::Small)?;
                trial.chain(At::Named(x), own_name(b"y"), self.live)?;
                trial.delete(At::Named(x))
            }
        }
    }

    /// Does it as often as the line says.
    fn turns(self, trial: &mut Trial) -> Result<(), TreeError>
        requires { Stands trial.old }
        ensures { Stands trial.new }
    {
        for _ in 0..self.times {
            self.turn(trial)?;
        }
        Ok(())
    }

    /// Does all of it, and answers how many contexts live then and what they hold.
    pub(crate) fn run(self, alloc: Global) -> Result<(u64, u64), TreeError> {
        let Ok(shelf) = no_hooks(alloc) else {
            return Err(TreeError::Memory);
        };
        let mut trial = Trial::new(alloc, shelf, 0)?;
        trial.create(At::Top, own_name(b"p"), CtxKind::Default)?;
        if !matches!(self.work, Work::Chain) {
            trial.widen(own_name(b"y"), self.live)?;
        }
        self.turns(&mut trial)?;
        Ok((trial.count(), trial.held()))
    }
}
