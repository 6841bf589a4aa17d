//! The hooks of a context run.
ghost use Rattle.std.specs.Prelude.{◌≡◌, ◌++◌, ◌≤◌, ◌<◌, [], ◌∷◌, length};
ghost use base.Fml.{ftrue};
ghost use Rattle.reset_callbacks.specs.Hook.{AreDistinct, Lacks, ran};
ghost use Rattle.reset_callbacks.specs.ShelfState.{held, finished};
ghost use Rattle.context_rules.specs.Ends.{callbacks, handed_in};
ghost use Rattle.context_node.specs.Ran.{Ran, ran_code};

use addr_space::Space;
use pgs_step::{Emit, What};
use reset_callbacks::{Pending, ResetHook, Shelf};
use std::marker::{Model, PhantomData};

/// How it is read off a value which hooks ran, and in which space.
pub trait Shows<X> {
    ghost shown: { X → Ran };
}

/// Which hooks of a context ran, the newest first, and what the space was while they did. It takes no memory and owns
/// none; only `run_all` hands one out.
pub struct HooksRan {
    marker: PhantomData<()>,
    pub ghost ran: { Ran } by { ran_code },
}

impl Model for HooksRan {
    ghost also_owns = { λ _. ftrue };
}

impl HooksRan {
    #[inline(always)]
    fn of<X, M: Shows<X>>(x: &X) -> HooksRan
        ensures { result.ran ≡ M.shown x.now }
    {
        let _ = x;
        HooksRan {
            marker: PhantomData,
        }
    }
}

impl Drop for HooksRan {
    #[inline(always)]
    fn drop(self) {
        let Self { marker: _ } = self;
    }
}

// The hooks that wait run in this space.
#[derive(Drop)]
struct Waiting<'a, H: ResetHook> {
    hooks: &'a Pending<H>,
    space: &'a Space,
}

struct Rule;

impl<'a, H: ResetHook> Shows<Waiting<'a, H>> for Rule {
    ghost shown = { λ w. record { hooks = w.hooks.now; space = w.space.now } };
}

/// Runs all hooks that wait on a context, the newest first, and hands each in. The space stands still meanwhile.
pub fn run_all<H: ResetHook, E: Emit>(
    waiting: &mut Pending<H>,
    shelf: &mut Shelf<H>,
    number: u64,
    space: &Space,
    out: &mut E,
) -> HooksRan
    requires count { length waiting.old ≤ shelf.old.out }
    requires words { AreDistinct (waiting.old ++ held shelf.old) }
    ensures none { waiting.new ≡ [] }
    ensures shelf { shelf.new ≡ handed_in waiting.old shelf.old }
    ensures emits { E.emits out.old (callbacks number waiting.old) out.new }
    ensures ran { result.ran ≡ record { hooks = waiting.old; space = space.now } }
{
    let ran = all_of(waiting, space);
    while let Some(hook) = waiting.pop() {
        call(hook, shelf, number, out);
    }
    ran
}

// All hooks that wait, in this space.
#[inline(always)]
fn all_of<H: ResetHook>(hooks: &Pending<H>, space: &Space) -> HooksRan
    ensures { result.ran ≡ record { hooks = hooks.now; space = space.now } }
{
    HooksRan::of::<Waiting<H>, Rule>(&Waiting { hooks, space })
}

// A hook runs and its event is said, in one step; then it is handed in.
#[inline(always)]
fn call<H: ResetHook, E: Emit>(mut hook: H, shelf: &mut Shelf<H>, number: u64, out: &mut E)
    requires out { 0 < shelf.old.out }
    requires other_word { Lacks (held shelf.old) (H.hook_meaning hook).word }
    ensures shelf { shelf.new ≡ finished (ran (H.hook_meaning hook)) shelf.old }
    ensures emits { E.emits out.old (callbacks number (H.hook_meaning hook ∷ [])) out.new }
{
    hook.run();
    out.emit(What::Callback {
        word: hook.word(),
        context: number,
    });
    shelf.finish(hook);
}
