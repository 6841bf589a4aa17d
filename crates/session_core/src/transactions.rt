//! Levels of a transaction begin.
ghost use Rattle.std.specs.Prelude.{◌≡◌, ◌<◌, ◌≤◌, [], ◌∷◌, length, true, All, OnOk};
ghost use Rattle.session_rules.specs.Limits.{most_levels};
ghost use Rattle.session_rules.specs.Elements as e;
ghost use Rattle.session_rules.specs.Elements.{LevelContext, OfLevel};
ghost use Rattle.session_rules.specs.Commands.{start};
ghost use Rattle.session_rules.specs.Standing.{AreOuter, IsAtRest};
ghost use Rattle.session_store.specs.State.{levels_of, portals_of};
ghost use Rattle.session_commands.specs.Answers.{refusal_of};
ghost use Rattle.session_core.specs.Begun.{HasBegun};
ghost use Rattle.session_commands.specs.Performed.{now, HasRoom, IsBetweenSteps, Performed};

use crate::session::Session;
use owner_core::OwnerError;
use owner_kinds::ExtKind;
use pgs_step::{Emit, Error, Name};
use reset_callbacks::ResetHook;
use session_commands::{Shared, call_error};
use subxact_stack::LevelError;

impl<H: ResetHook> Session<H> {
    /// Pushes a level, which is then being started.
    fn make_level<K: ExtKind, E: Emit>(
        &mut self,
        name: Option<Name>,
        implicit: bool,
        shared: &mut Shared<'_, H, K>,
        out: &mut E,
    ) -> Result<(), Error>
        requires between { IsBetweenSteps (now self.old shared.old) }
        requires room { HasRoom 1 (now self.old shared.old) }
        requires most { length self.old.levels ≤ most_levels }
        ensures performed { Performed 1 (e.MakeLevel name implicit ∷ []) (now self.old shared.old) (now self.new shared.new) (λ events. E.emits out.old events out.new) (refusal_of result) }
    {
        shared.calls.next()?;
        match self.store.begin_level(name, implicit, out) {
            Ok(()) => {}
            Err(LevelError::TooMany) => return Err(Error::LimitReached),
            Err(LevelError::Memory) => return Err(Error::NoMemory(shared.calls.count)),
        }
        Ok(())
    }

    /// Makes the context of the level that is being started.
    fn make_context_of_level<K: ExtKind, E: Emit>(
        &mut self,
        shared: &mut Shared<'_, H, K>,
        out: &mut E,
    ) -> Result<(), Error>
        requires between { IsBetweenSteps (now self.old shared.old) }
        requires room { HasRoom 1 (now self.old shared.old) }
        requires level { 0 < length self.old.levels }
        ensures performed { Performed 1 (e.MakeContext LevelContext ∷ []) (now self.old shared.old) (now self.new shared.new) (λ events. E.emits out.old events out.new) (refusal_of result) }
    {
        shared.calls.next()?;
        if let Err(refusal) = self.store.make_level_context(shared.space, out) {
            return Err(call_error(refusal, shared.calls.count));
        }
        Ok(())
    }

    /// Makes the owner of the level that is being started.
    fn make_owner_of_level<K: ExtKind, E: Emit>(
        &mut self,
        shared: &mut Shared<'_, H, K>,
        out: &mut E,
    ) -> Result<(), Error>
        requires between { IsBetweenSteps (now self.old shared.old) }
        requires room { HasRoom 1 (now self.old shared.old) }
        requires level { 0 < length self.old.levels }
        ensures performed { Performed 1 (e.MakeOwner OfLevel ∷ []) (now self.old shared.old) (now self.new shared.new) (λ events. E.emits out.old events out.new) (refusal_of result) }
    {
        shared.calls.next()?;
        match self.store.make_level_owner(out) {
            Ok(()) => {}
            Err(OwnerError::TooMany) => return Err(Error::LimitReached),
            Err(_) => return Err(Error::NoMemory(shared.calls.count)),
        }
        Ok(())
    }

    /// Begins a level inside the deepest one: it gets its context and its owner, and its context becomes the current one.
    pub(crate) fn start_level<K: ExtKind, E: Emit>(
        &mut self,
        name: Option<Name>,
        implicit: bool,
        shared: &mut Shared<'_, H, K>,
        out: &mut E,
    ) -> Result<(), Error>
        requires between { IsBetweenSteps (now self.old shared.old) }
        requires rest { All IsAtRest (portals_of self.old.portals) }
        requires room { HasRoom 3 (now self.old shared.old) }
        requires most { length self.old.levels ≤ most_levels }
        requires outer { AreOuter (levels_of self.old.levels) }
        requires alone { implicit ≡ true → self.old.levels ≡ [] }
        ensures performed { Performed 3 (start name implicit) (now self.old shared.old) (now self.new shared.new) (λ events. E.emits out.old events out.new) (refusal_of result) }
        ensures between { IsBetweenSteps (now self.new shared.new) }
        ensures portals { OnOk result (portals_of self.new.portals ≡ portals_of self.old.portals) }
        ensures begun { OnOk result (HasBegun name implicit (levels_of self.old.levels) (levels_of self.new.levels)) }
    {
        self.make_level(name, implicit, shared, out)?;
        self.make_context_of_level(shared, out)?;
        self.make_owner_of_level(shared, out)?;
        self.store.level_stands();
        Ok(())
    }
}
