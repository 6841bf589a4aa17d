//! Levels end, and the session recovers from errors.
ghost use Rattle.std.specs.Prelude.{◌≡◌, ◌<◌, length, [], ◌∷◌, ◌++◌, true, false, All, None, IfSome};
ghost use Rattle.addr_space.specs.Space.{held};
ghost use Rattle.session_rules.specs.State.{first_of, is_aborted};
ghost use Rattle.session_rules.specs.Standing.{IsAtRest, IsOpen};
ghost use Rattle.session_rules.specs.Ends.{exited, given_up, recovered};
ghost use Rattle.session_rules.specs.Elements as element;
ghost use Rattle.session_store.specs.State.{levels_of, portals_of};
ghost use Rattle.subxact_stack.specs.declared.levels.Level.{Level as ALevel};
ghost use Rattle.subxact_stack.specs.Levels.{with_deepest};
ghost use Rattle.session_core.specs.Begun.{IsStarting};
ghost use Rattle.session_core.specs.Lines.{IsBetweenLines};
ghost use Rattle.session_core.specs.Ended.{Ends};
ghost use Rattle.session_commands.specs.Performed.{now, IsBetweenSteps, Performed};

use crate::session::Session;
use owner_kinds::ExtKind;
use pgs_step::{Emit, Error, What};
use reset_callbacks::ResetHook;
use session_commands::{Shared, abort, clean_up, close, commit_top, roll_back, subcommit};

impl<H: ResetHook> Session<H> {
    /// Level 1 commits, and the session is in no transaction then: `CommitTransaction`.
    pub(crate) fn commit_top<K: ExtKind, E: Emit>(
        &mut self,
        shared: &mut Shared<'_, H, K>,
        out: &mut E,
    )
        requires between { IsBetweenSteps (now self.old shared.old) }
        requires level { length self.old.levels ≡ 1 }
        ensures performed { Performed 0 (element.CommitTop ∷ []) (now self.old shared.old) (now self.new shared.new) (λ events. E.emits out.old events out.new) None }
        ensures levels { self.new.levels ≡ [] }
        ensures between { IsBetweenSteps (now self.new shared.new) }
    {
        commit_top(
            &mut self.store,
            shared.space,
            shared.shelf,
            shared.commons,
            out,
        );
    }

    /// The deepest level, which isn't level 1, commits, and the one above it is the deepest then: `CommitSubTransaction`.
    pub(crate) fn subcommit<K: ExtKind, E: Emit>(
        &mut self,
        shared: &mut Shared<'_, H, K>,
        out: &mut E,
    )
        requires between { IsBetweenSteps (now self.old shared.old) }
        requires level { 1 < length self.old.levels }
        ensures performed { Performed 0 (element.Subcommit ∷ []) (now self.old shared.old) (now self.new shared.new) (λ events. E.emits out.old events out.new) None }
        ensures levels { (level : ALevel) × (self.old.levels ≡ self.new.levels ++ level ∷ []) }
        ensures between { IsBetweenSteps (now self.new shared.new) }
    {
        subcommit(
            &mut self.store,
            shared.space,
            shared.shelf,
            shared.commons,
            out,
        );
    }

    /// The deepest level aborts: `AbortTransaction` and `AbortSubTransaction`.
    pub(crate) fn abort<K: ExtKind, E: Emit>(&mut self, shared: &mut Shared<'_, H, K>, out: &mut E)
        requires between { IsBetweenSteps (now self.old shared.old) }
        requires level { 0 < length self.old.levels }
        ensures performed { Performed 0 (element.Abort ∷ []) (now self.old shared.old) (now self.new shared.new) (λ events. E.emits out.old events out.new) None }
        ensures levels { self.new.levels ≡ with_deepest (λ level. record level { aborted = true }) self.old.levels }
        ensures between { IfSome (first_of (levels_of self.old.levels)) (λ level. level.aborted ≡ false → IsOpen level → IsBetweenSteps (now self.new shared.new)) }
    {
        abort(
            &mut self.store,
            shared.space,
            shared.shelf,
            shared.commons,
            out,
        );
    }

    /// The deepest level, which is aborted, is cleaned up: `CleanupTransaction` and `CleanupSubTransaction`.
    pub(crate) fn clean_up<K: ExtKind, E: Emit>(
        &mut self,
        shared: &mut Shared<'_, H, K>,
        out: &mut E,
    )
        requires between { IsBetweenSteps (now self.old shared.old) }
        requires level { 0 < length self.old.levels }
        requires aborted { is_aborted (levels_of self.old.levels) ≡ true }
        ensures performed { Performed 0 (element.Cleanup ∷ []) (now self.old shared.old) (now self.new shared.new) (λ events. E.emits out.old events out.new) None }
        ensures levels { (level : ALevel) × (self.old.levels ≡ self.new.levels ++ level ∷ []) }
        ensures rest { All IsAtRest (portals_of self.new.portals) }
        ensures between { IsBetweenSteps (now self.new shared.new) }
    {
        clean_up(&mut self.store, shared.space, shared.shelf, out);
    }

    /// The deepest level, which isn't aborted, is rolled back: it aborts, and is cleaned up.
    pub(crate) fn roll_back<K: ExtKind, E: Emit>(
        &mut self,
        shared: &mut Shared<'_, H, K>,
        out: &mut E,
    )
        requires between { IsBetweenSteps (now self.old shared.old) }
        requires level { 0 < length self.old.levels }
        ensures performed { Performed 0 (element.Abort ∷ element.Cleanup ∷ []) (now self.old shared.old) (now self.new shared.new) (λ events. E.emits out.old events out.new) None }
        ensures levels { (level : ALevel) × (self.old.levels ≡ self.new.levels ++ level ∷ []) }
        ensures rest { All IsAtRest (portals_of self.new.portals) }
        ensures between { IsBetweenSteps (now self.new shared.new) }
    {
        roll_back(
            &mut self.store,
            shared.space,
            shared.shelf,
            shared.commons,
            out,
        );
    }

    /// What becomes of the transaction after an error, which is said: `AbortCurrentTransaction`. A level that is being started
    /// goes, and the one above it aborts; a level that was begun for one command alone goes; any other aborts; and in an aborted
    /// one nothing more is done.
    pub fn recover<K: ExtKind, E: Emit>(
        &mut self,
        error: Error,
        shared: &mut Shared<'_, H, K>,
        out: &mut E,
    )
        requires between { IsBetweenSteps (now self.old shared.old) }
        ensures did { Ends (recovered error) (now self.old shared.old) (now self.new shared.new) (λ events. E.emits out.old events out.new) }
        ensures lines { IsBetweenLines (now self.new shared.new) }
    {
        out.emit(What::Error(error));
        let Some(level) = self.store.deepest_level() else {
            return;
        };
        if level.aborted {
            return;
        }
        if level.starting {
            self.give_up_start(shared, out);
            return;
        }
        if level.implicit {
            roll_back(
                &mut self.store,
                shared.space,
                shared.shelf,
                shared.commons,
                out,
            );
            return;
        }
        abort(
            &mut self.store,
            shared.space,
            shared.shelf,
            shared.commons,
            out,
        );
    }

    /// The deepest level, which is being started, is rolled back, and the one above it, where there is one, aborts.
    fn give_up_start<K: ExtKind, E: Emit>(&mut self, shared: &mut Shared<'_, H, K>, out: &mut E)
        requires between { IsBetweenSteps (now self.old shared.old) }
        requires level { IsStarting (levels_of self.old.levels) }
        ensures did { Ends (given_up (levels_of self.old.levels)) (now self.old shared.old) (now self.new shared.new) (λ events. E.emits out.old events out.new) }
    {
        roll_back(
            &mut self.store,
            shared.space,
            shared.shelf,
            shared.commons,
            out,
        );
        if self.store.depth() == 0 {
            return;
        }
        abort(
            &mut self.store,
            shared.space,
            shared.shelf,
            shared.commons,
            out,
        );
    }

    /// The session ends: its transaction is rolled back, and all contexts go. Its account of the space holds nothing then.
    pub fn exit<K: ExtKind, E: Emit>(&mut self, shared: &mut Shared<'_, H, K>, out: &mut E)
        requires between { IsBetweenSteps (now self.old shared.old) }
        ensures did { Ends exited (now self.old shared.old) (now self.new shared.new) (λ events. E.emits out.old events out.new) }
        ensures held { held shared.new.space.now self.old.tree.account ≡ 0 }
    {
        self.roll_back_to(1, shared, out);
        close(&mut self.store, shared.space, shared.shelf, out);
        out.emit(What::Exit);
    }
}
