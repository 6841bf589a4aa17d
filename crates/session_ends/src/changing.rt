//! Portals are asked for, and change as their queries run.
ghost use Rattle.std.specs.Prelude.{◌≡◌, ◌∷◌, ℕ, List, Some, IfSome, IsSome, length, option_copied};
ghost use Rattle.std.specs.Option.{option_and_then, option_map};
ghost use Rattle.addr_space.specs.Space.{Space};
ghost use Rattle.reset_callbacks.specs.ShelfState.{ShelfState};
ghost use Rattle.exec_core.specs.Turn.{IsScan, rest, taken};
ghost use Rattle.context_tree.specs.State.{IsLive};
ghost use Rattle.portal_store.specs.Portal.{coming};
ghost use Rattle.portal_store.specs.Portals.{changed, place_named, portal_named};
ghost use Rattle.portal_store.specs.declared.portal.PortalState.TheVariants as state;
ghost use Rattle.session_owners.specs.ResourceState as owners;
ghost use Rattle.session_owners.specs.Commons.{CommonState};
ghost use Rattle.session_rules.specs.State.{depth};
ghost use Rattle.session_rules.specs.Lookup as rules;
ghost use Rattle.session_rules.specs.Acts.{portal_becomes};
ghost use Rattle.session_store.specs.State.{portal_state, session_of};
ghost use Rattle.session_store.specs.Calls.{Acted, IsSilent, PortalsAlone, StandsIn};

use exec_core::ScanStep;
use pgs_step::Name;
use portal_store::{Portal, PortalState};
use reset_callbacks::ResetHook;
use session_store::Store;

/// The portal of this name: `GetPortalByName`.
#[inline]
pub fn portal_named<'a, H: ResetHook>(store: &'a Store<H>, name: &Name) -> Option<&'a Portal>
    ensures portal { option_copied result ≡ portal_named name.now store.now.portals }
    ensures session { (s : Space) → option_map portal_state (option_copied result) ≡ rules.portal_named name.now (session_of store.now s).portals }
    ensures context { (s : Space) (x : ShelfState) (c : CommonState) → StandsIn store.now s x c → IfSome (option_and_then (λ p. p.context) (option_copied result)) (IsLive store.now.tree) }
    ensures expr { (s : Space) (x : ShelfState) (c : CommonState) → StandsIn store.now s x c → IfSome (option_and_then (λ p. p.expr) (option_copied result)) (IsLive store.now.tree) }
    ensures owner { (s : Space) (x : ShelfState) (c : CommonState) → StandsIn store.now s x c → IfSome (option_and_then (λ p. p.owner) (option_copied result)) (owners.IsLive store.now.owners) }
    ensures scan { IfSome (option_copied result) (λ p. IsScan p.scan) }
{
    store.portals.get(name)
}

/// Where the portal of this name is among the session's, if there is one.
pub fn place_of<H: ResetHook>(store: &Store<H>, name: &Name) -> Option<usize>
    ensures { result ≡ place_named name.now store.now.portals }
{
    store.portals.place_of(name)
}

/// The portal of this place. What is said of it is said by the name whose place it is.
#[inline]
pub fn portal_at<H: ResetHook>(store: &Store<H>, place: usize) -> Option<&Portal>
    ensures portal { (name : List ℕ) → place_named name store.now.portals ≡ Some place → option_copied result ≡ portal_named name store.now.portals }
    ensures session { (name : List ℕ) → place_named name store.now.portals ≡ Some place → (s : Space) → option_map portal_state (option_copied result) ≡ rules.portal_named name (session_of store.now s).portals }
    ensures context { (name : List ℕ) → place_named name store.now.portals ≡ Some place → (s : Space) (x : ShelfState) (c : CommonState) → StandsIn store.now s x c → IfSome (option_and_then (λ p. p.context) (option_copied result)) (IsLive store.now.tree) }
    ensures expr { (name : List ℕ) → place_named name store.now.portals ≡ Some place → (s : Space) (x : ShelfState) (c : CommonState) → StandsIn store.now s x c → IfSome (option_and_then (λ p. p.expr) (option_copied result)) (IsLive store.now.tree) }
    ensures owner { (name : List ℕ) → place_named name store.now.portals ≡ Some place → (s : Space) (x : ShelfState) (c : CommonState) → StandsIn store.now s x c → IfSome (option_and_then (λ p. p.owner) (option_copied result)) (owners.IsLive store.now.owners) }
    ensures scan { (name : List ℕ) → place_named name store.now.portals ≡ Some place → IfSome (option_copied result) (λ p. IsScan p.scan) }
{
    store.portals.at(place)
}

/// The portal of this name is whole: its scan may be fetched from. That is `PORTAL_READY` in PostgreSQL.
pub fn portal_ready<H: ResetHook>(store: &mut Store<H>, name: &Name)
    requires there { IsSome (portal_named name.now store.old.portals) }
    ensures acted { (s : Space) (x : ShelfState) (c : CommonState) → Acted (portal_becomes name.now (λ p. record p { state = state.Ready })) store.old store.new s s x x c c IsSilent }
    ensures alone { PortalsAlone store.old store.new }
    ensures portals { store.new.portals ≡ changed name.now (λ p. record p { state = state.Ready }) store.old.portals }
{
    store.portals.set_state(name, PortalState::Ready);
}

/// The portal of this place is fetched from in the deepest level: `MarkPortalActive` as far as its level goes.
pub fn begin_fetch<H: ResetHook>(store: &mut Store<H>, place: usize)
    requires there { (name : List ℕ) × (place_named name store.old.portals ≡ Some place) }
    ensures acted { (name : List ℕ) → place_named name store.old.portals ≡ Some place → (s : Space) (x : ShelfState) (c : CommonState) → Acted (λ scene. portal_becomes name (λ p. record p { active = depth scene.session }) scene) store.old store.new s s x x c c IsSilent }
    ensures alone { PortalsAlone store.old store.new }
    ensures portals { (name : List ℕ) → place_named name store.old.portals ≡ Some place → store.new.portals ≡ changed name (λ p. record p { active = length store.old.levels }) store.old.portals }
{
    let level = store.levels.depth();
    store.portals.set_active_at(place, level);
}

/// The query of the portal of this name has failed: `MarkPortalFailed`.
#[cold]
pub fn fail_portal<H: ResetHook>(store: &mut Store<H>, name: &Name)
    requires there { IsSome (portal_named name.now store.old.portals) }
    ensures acted { (s : Space) (x : ShelfState) (c : CommonState) → Acted (portal_becomes name.now (λ p. record p { state = state.Failed })) store.old store.new s s x x c c IsSilent }
    ensures alone { PortalsAlone store.old store.new }
    ensures portals { store.new.portals ≡ changed name.now (λ p. record p { state = state.Failed }) store.old.portals }
{
    store.portals.set_state(name, PortalState::Failed);
}

/// The next step of the scan of the portal of this place, which stands behind it then. Where a turn begins, one that was left in the
/// middle begins anew. What the step asks of the session is the caller's to do.
#[inline]
pub fn step_at<H: ResetHook>(store: &mut Store<H>, place: usize, begins: bool) -> ScanStep
    requires there { (name : List ℕ) × (place_named name store.old.portals ≡ Some place) }
    ensures step { (name : List ℕ) → place_named name store.old.portals ≡ Some place → IfSome (portal_named name store.old.portals) (λ p. coming begins p.scan ≡ result ∷ rest result (taken result p.scan)) }
    ensures acted { (name : List ℕ) → place_named name store.old.portals ≡ Some place → (s : Space) (x : ShelfState) (c : CommonState) → Acted (portal_becomes name (λ old. record old { scan = taken result old.scan })) store.old store.new s s x x c c IsSilent }
    ensures alone { PortalsAlone store.old store.new }
    ensures portals { (name : List ℕ) → place_named name store.old.portals ≡ Some place → store.new.portals ≡ changed name (λ old. record old { scan = taken result old.scan }) store.old.portals }
{
    store.portals.step_at(place, begins)
}
