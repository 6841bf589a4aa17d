//! What it is to take the events of a session, one by one.
ghost use Rattle.std.specs.Prelude.{◌≡◌, List, [], ◌∷◌, ◌++◌};
ghost use Rattle.pgs_step.specs.declared.events.What.{What};

use crate::events::What;

/// Takes the events of one session.
///
/// Its one meaning is the relation `emits`: from a value, by these events in order, to a later value. It
/// speaks of what the two values hold. Where a contract says that a call emits events, `emits` holds for
/// the emitter before the call, these events and the emitter after it.
pub trait Emit {
    ghost emits: { Self → List What → Self → Type 0 };

    /// Takes one event. It can't fail: what the event leads to shows in `emits`.
    fn emit(&mut self, what: What)
        ensures emitted { emits self.old (what ∷ []) self.new };

    /// With no event, nothing happened.
    ghost emits_none: { (a : Self) → emits a [] a };

    /// Events that follow one another are one list of events.
    ghost emits_more: { (a b c : Self) (xs ys both : List What) → emits a xs b → emits b ys c → xs ++ ys ≡ both → emits a both c };
}
