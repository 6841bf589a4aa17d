//! The active snapshots of a session, and what it counts.
ghost use Rattle.std.specs.Prelude.{◌≡◌, ◌↔◌, false, IsErr, OnOk, OnErr};
ghost use Rattle.addr_space.specs.Space.{Space};
ghost use Rattle.reset_callbacks.specs.ShelfState.{ShelfState};
ghost use Rattle.session_rules.specs.Checks.{holds_snapshot};
ghost use Rattle.session_rules.specs.Counts.{counts};
ghost use Rattle.session_rules.specs.Parts.{snapshot_popped};
ghost use Rattle.session_rules.specs.Taking.{snapshot_pushed};
ghost use Rattle.session_owners.specs.Commons.{CommonState};
ghost use Rattle.session_store.specs.State.{session_of};
ghost use Rattle.session_store.specs.Calls.{Acted, Refused};
ghost use Rattle.session_store.specs.Owned.{OwnersAlone};

use crate::store::Store;
use pgs_step::{Emit, SessionCounts};
use reset_callbacks::ResetHook;
use snap_table::SnapError;
use std::alloc::AllocError;

impl<H: ResetHook> Store<H> {
    /// Makes a snapshot the newest active one, at the deepest level: `PushActiveSnapshot`. It fails for want of memory alone.
    pub fn push<E: Emit>(&mut self, snapshot: u32, out: &mut E) -> Result<(), AllocError>
        ensures acted { OnOk result ((s : Space) (x : ShelfState) (c : CommonState) → Acted (snapshot_pushed snapshot) self.old self.new s s x x c c (λ events. E.emits out.old events out.new)) }
        ensures alone { (c : CommonState) → OwnersAlone self.old self.new c c }
        ensures refused { OnErr result ((s : Space) (x : ShelfState) (c : CommonState) → Refused self.old self.new s s x x c c) }
        ensures silent { OnErr result (out.new ≡ out.old) }
    {
        self.owners.push(snapshot, self.levels.depth(), out)
    }

    /// Pops the newest active snapshot: `PopActiveSnapshot`. `NotHeld` comes exactly where there is none of the deepest level.
    pub fn pop<E: Emit>(&mut self, out: &mut E) -> Result<(), SnapError>
        ensures not_held { (s : Space) → IsErr result ↔ (holds_snapshot (session_of self.old s) ≡ false) }
        ensures acted { OnOk result ((s : Space) (x : ShelfState) (c : CommonState) → Acted snapshot_popped self.old self.new s s x x c c (λ events. E.emits out.old events out.new)) }
        ensures alone { (c : CommonState) → OwnersAlone self.old self.new c c }
        ensures refused { OnErr result ((s : Space) (x : ShelfState) (c : CommonState) → Refused self.old self.new s s x x c c) }
        ensures silent { OnErr result (out.new ≡ out.old) }
    {
        self.owners.pop(self.levels.depth(), out)
    }

    /// What the session counts, as `stat` shows it.
    pub fn counts(&self) -> SessionCounts
        ensures { (s : Space) → result ≡ counts (session_of self.now s) }
    {
        self.owners.counts(self.tree.count())
    }
}
