//! Savepoints, and the levels from the deepest up to one.
ghost use Rattle.std.specs.Prelude.{◌≡◌, ◌+◌, ◌<◌, ◌≤◌, length, [], ◌∷◌, ◌++◌, All, Some, None, false, OnErr};
ghost use Rattle.pgs_step.specs.declared.events.What.TheVariants as what;
ghost use Rattle.session_rules.specs.Limits.{most_levels};
ghost use Rattle.session_rules.specs.Elements as element;
ghost use Rattle.session_rules.specs.Commands.{at_savepoint, committed_to, rolled_back_to, start, then_ok};
ghost use Rattle.session_rules.specs.Standing.{AreOuter, IsAtRest};
ghost use Rattle.session_store.specs.State.{levels_of, portals_of};
ghost use Rattle.subxact_stack.specs.declared.levels.Level.{Level as ALevel};
ghost use Rattle.session_commands.specs.Answers.{refusal_of};
ghost use Rattle.session_commands.specs.Performed.{now, HasRoom, IsBetweenSteps, Performed};

use crate::session::Session;
use owner_kinds::ExtKind;
use pgs_step::{Emit, Error, Name, What};
use reset_callbacks::ResetHook;
use session_commands::Shared;

impl<H: ResetHook> Session<H> {
    /// The deepest level is rolled back; where it is aborted it is only cleaned up.
    fn end_level<K: ExtKind, E: Emit>(&mut self, shared: &mut Shared<'_, H, K>, out: &mut E)
        requires between { IsBetweenSteps (now self.old shared.old) }
        requires level { 0 < length self.old.levels }
        ensures performed { Performed 0 (rolled_back_to (length self.old.levels) (levels_of self.old.levels)) (now self.old shared.old) (now self.new shared.new) (λ events. E.emits out.old events out.new) None }
        ensures levels { (level : ALevel) × (self.old.levels ≡ self.new.levels ++ level ∷ []) }
        ensures rest { All IsAtRest (portals_of self.new.portals) }
        ensures between { IsBetweenSteps (now self.new shared.new) }
    {
        if self.store.is_aborted() {
            self.clean_up(shared, out);
            return;
        }
        self.roll_back(shared, out);
    }

    /// The levels from the deepest up to the one of this number are rolled back, where there is that one.
    pub(crate) fn roll_back_to<K: ExtKind, E: Emit>(
        &mut self,
        level: u32,
        shared: &mut Shared<'_, H, K>,
        out: &mut E,
    )
        requires between { IsBetweenSteps (now self.old shared.old) }
        requires level { 0 < level }
        ensures performed { Performed 0 (rolled_back_to level (levels_of self.old.levels)) (now self.old shared.old) (now self.new shared.new) (λ events. E.emits out.old events out.new) None }
        ensures between { IsBetweenSteps (now self.new shared.new) }
        ensures below { length self.new.levels < level }
        ensures rest { level ≤ length self.old.levels → All IsAtRest (portals_of self.new.portals) }
        ensures outer { level ≤ length self.old.levels → AreOuter (levels_of self.new.levels) }
        ensures at_most { length self.new.levels ≤ most_levels }
    {
        while self.depth() >= level {
            self.end_level(shared, out);
        }
    }

    /// The levels from the deepest up to the one of this number, which isn't 1, commit, where there is that one.
    fn commit_to<K: ExtKind, E: Emit>(
        &mut self,
        level: u32,
        shared: &mut Shared<'_, H, K>,
        out: &mut E,
    )
        requires between { IsBetweenSteps (now self.old shared.old) }
        requires level { 1 < level }
        ensures performed { Performed 0 (committed_to level (levels_of self.old.levels)) (now self.old shared.old) (now self.new shared.new) (λ events. E.emits out.old events out.new) None }
        ensures between { IsBetweenSteps (now self.new shared.new) }
        ensures left { level ≤ length self.old.levels + 1 → length self.new.levels + 1 ≡ level }
    {
        while self.depth() >= level {
            self.subcommit(shared, out);
        }
    }

    /// All levels commit, and the session is in no transaction then.
    fn commit_all<K: ExtKind, E: Emit>(&mut self, shared: &mut Shared<'_, H, K>, out: &mut E)
        requires between { IsBetweenSteps (now self.old shared.old) }
        requires level { 0 < length self.old.levels }
        ensures performed { Performed 0 (committed_to 2 (levels_of self.old.levels) ++ (element.CommitTop ∷ [])) (now self.old shared.old) (now self.new shared.new) (λ events. E.emits out.old events out.new) None }
    {
        self.commit_to(2, shared, out);
        self.commit_top(shared, out);
    }

    /// The transaction commits, and the last word.
    pub(crate) fn commit_block<K: ExtKind, E: Emit>(
        &mut self,
        shared: &mut Shared<'_, H, K>,
        out: &mut E,
    )
        requires between { IsBetweenSteps (now self.old shared.old) }
        requires level { 0 < length self.old.levels }
        ensures performed { Performed 0 (then_ok (committed_to 2 (levels_of self.old.levels) ++ (element.CommitTop ∷ []))) (now self.old shared.old) (now self.new shared.new) (λ events. E.emits out.old events out.new) None }
    {
        self.commit_all(shared, out);
        out.emit(What::Ok);
    }

    /// The transaction is rolled back, and the last word.
    pub(crate) fn roll_block_back<K: ExtKind, E: Emit>(
        &mut self,
        shared: &mut Shared<'_, H, K>,
        out: &mut E,
    )
        requires between { IsBetweenSteps (now self.old shared.old) }
        ensures performed { Performed 0 (then_ok (rolled_back_to 1 (levels_of self.old.levels))) (now self.old shared.old) (now self.new shared.new) (λ events. E.emits out.old events out.new) None }
    {
        self.roll_back_to(1, shared, out);
        out.emit(What::Ok);
    }

    /// A transaction block or a savepoint begins, and the last word.
    pub(crate) fn begin<K: ExtKind, E: Emit>(
        &mut self,
        name: Option<Name>,
        shared: &mut Shared<'_, H, K>,
        out: &mut E,
    ) -> Result<(), Error>
        requires between { IsBetweenSteps (now self.old shared.old) }
        requires rest { All IsAtRest (portals_of self.old.portals) }
        requires room { HasRoom 3 (now self.old shared.old) }
        requires at_most { length self.old.levels ≤ most_levels }
        requires outer { AreOuter (levels_of self.old.levels) }
        ensures performed { Performed 3 (then_ok (start name false)) (now self.old shared.old) (now self.new shared.new) (λ events. E.emits out.old events out.new) (refusal_of result) }
        ensures between { OnErr result (IsBetweenSteps (now self.new shared.new)) }
    {
        self.start_level(name, false, shared, out)?;
        out.emit(What::Ok);
        Ok(())
    }

    /// The savepoint of this name commits, with all below it, and the last word: `ReleaseSavepoint`.
    ///
    /// `NoSuchSavepoint` comes where no level of at least 2 has the name.
    pub(crate) fn release<K: ExtKind, E: Emit>(
        &mut self,
        name: &Name,
        shared: &mut Shared<'_, H, K>,
        out: &mut E,
    ) -> Result<(), Error>
        requires between { IsBetweenSteps (now self.old shared.old) }
        requires level { 0 < length self.old.levels }
        ensures performed { Performed 0 (then_ok (at_savepoint name.now (levels_of self.old.levels) (λ n. committed_to n (levels_of self.old.levels)))) (now self.old shared.old) (now self.new shared.new) (λ events. E.emits out.old events out.new) (refusal_of result) }
        ensures between { OnErr result (IsBetweenSteps (now self.new shared.new)) }
    {
        let Some(level) = self.store.savepoint(name) else {
            return Err(Error::NoSuchSavepoint);
        };
        self.commit_to(level, shared, out);
        out.emit(What::Ok);
        Ok(())
    }

    /// The levels from the deepest up to the one of this number are rolled back, and a level of this name is begun in place of
    /// the last of them.
    fn begin_again<K: ExtKind, E: Emit>(
        &mut self,
        level: u32,
        name: Name,
        shared: &mut Shared<'_, H, K>,
        out: &mut E,
    ) -> Result<(), Error>
        requires between { IsBetweenSteps (now self.old shared.old) }
        requires room { HasRoom 3 (now self.old shared.old) }
        requires some { 0 < level }
        requires within { level ≤ length self.old.levels }
        ensures performed { Performed 3 (rolled_back_to level (levels_of self.old.levels) ++ start (Some name) false) (now self.old shared.old) (now self.new shared.new) (λ events. E.emits out.old events out.new) (refusal_of result) }
        ensures between { IsBetweenSteps (now self.new shared.new) }
    {
        self.roll_back_to(level, shared, out);
        self.start_level(Some(name), false, shared, out)
    }

    /// The savepoint of this name is rolled back, with all below it, and begun again, and the last word: `RollbackToSavepoint`.
    ///
    /// `NoSuchSavepoint` comes where no level of at least 2 has the name.
    pub(crate) fn return_to<K: ExtKind, E: Emit>(
        &mut self,
        name: &Name,
        shared: &mut Shared<'_, H, K>,
        out: &mut E,
    ) -> Result<(), Error>
        requires between { IsBetweenSteps (now self.old shared.old) }
        requires room { HasRoom 3 (now self.old shared.old) }
        requires level { 0 < length self.old.levels }
        ensures performed { Performed 3 (then_ok (at_savepoint name.now (levels_of self.old.levels) (λ n. rolled_back_to n (levels_of self.old.levels) ++ start (Some name.now) false))) (now self.old shared.old) (now self.new shared.new) (λ events. E.emits out.old events out.new) (refusal_of result) }
        ensures between { OnErr result (IsBetweenSteps (now self.new shared.new)) }
    {
        let Some(level) = self.store.savepoint(name) else {
            return Err(Error::NoSuchSavepoint);
        };
        self.begin_again(level, *name, shared, out)?;
        out.emit(What::Ok);
        Ok(())
    }
}
