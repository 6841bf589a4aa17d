//! What happens to an owner's locks at the end of its level.
ghost use Rattle.std.specs.Prelude.{◌≡◌, ℕ, List, [], ◌∷◌};
ghost use Rattle.pgs_step.specs.declared.ids.KindId.{KindId as Kind};
ghost use Rattle.pgs_step.specs.declared.events.What.{What};
ghost use Rattle.owner_core.specs.Locks.{steps_of_locks};

use crate::table::Release;
use pgs_step::{Emit, OwnerId};

/// What happens to the locks of an owner.
#[derive(Clone, Copy)]
pub enum Locks {
    /// Nothing: they go with all locks of the session.
    Stay,
    /// They are released.
    Release(OwnerId),
    /// They are passed to another owner.
    Pass(OwnerId, OwnerId),
    /// All locks of the session are released in this owner's name.
    ReleaseAll(OwnerId),
}

/// Does to the locks of an owner what is to happen to them.
#[inline(always)]
pub fn do_locks<R: Release, E: Emit>(locks: Locks, table: &mut R, out: &mut E)
    requires fit { R.IsFit table.old }
    ensures steps { (events : List What) × R.does table.old (steps_of_locks locks) events table.new × E.emits out.old events out.new }
    ensures fit { R.IsFit table.new }
    ensures kinds { R.kind_table table.new ≡ R.kind_table table.old }
    ensures counted { (kind : Kind) (key : ℕ) → R.counted table.new kind key ≡ R.counted table.old kind key }
{
    match locks {
        Locks::Stay => {}
        Locks::Release(owner) => table.release_owner(owner, out),
        Locks::Pass(from, to) => table.pass_owner(from, to, out),
        Locks::ReleaseAll(top) => table.release_all(top, out),
    }
}
