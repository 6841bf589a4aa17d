//! What the ends of levels are made of: an owner that is released and discarded, and a context that goes, where there is one.
ghost use Rattle.std.specs.Prelude.{◌≡◌, ◌≢◌, ◌↔◌, ℕ, true, false, None, IfSome, MatchOption};
ghost use Rattle.std.specs.Option.{option_map};
ghost use Rattle.addr_space.specs.Space.{Space, Asks};
ghost use Rattle.forest.specs.Forest.{Empty, Once, has, at, children, is_above, parent_of};
ghost use Rattle.pgs_step.specs.declared.ids.OwnerId.{OwnerId as AnOwner};
ghost use Rattle.context_rules.specs.Ends.{children_gone, gone};
ghost use Rattle.context_rules.specs.Refusals.{is_within};
ghost use Rattle.context_tree.specs.Calls.{Did, DidNothing};
ghost use Rattle.context_tree.specs.State.{Agrees, HooksFit, IsLive, Moves, place_of, stands_for};
ghost use Rattle.session_owners.specs.ResourceState as owners;
ghost use Rattle.session_owners.specs.ResourceState.{AllAt, HoldsNothing, owners_of};
ghost use Rattle.session_owners.specs.Placing.{AreLeft, PlansFit};
ghost use Rattle.session_owners.specs.Fitting.{Acted, ActedOn};
ghost use Rattle.session_owners.specs.Commons.{Balances, CommonState, Serves};
ghost use Rattle.session_rules.specs.Acts.{where_there};
ghost use Rattle.session_rules.specs.Releases.{owner_gone, owner_moved, owner_released};
ghost use Rattle.session_store.specs.State.{only_empty};
ghost use Rattle.session_ends.specs.Place.{CanGo, GoesOn, hosting};
ghost use Rattle.session_ends.specs.Parts.{going};

use crate::place::Place;
use addr_space::Space;
use context_tree::ContextTree;
use owner_kinds::ExtKind;
use pgs_step::{CtxId, Emit, OwnerId};
use reset_callbacks::{ResetHook, Shelf};
use session_owners::{Commons, Resources};

/// Releases all that an owner holds, and all below it, if there is one.
pub(crate) fn release_owner<H: ResetHook, K: ExtKind, E: Emit>(
    resources: &mut Resources,
    owner: Option<OwnerId>,
    commit: bool,
    top: bool,
    place: &mut Place<'_, H>,
    commons: &mut Commons<K>,
    out: &mut E,
)
    requires live { IfSome owner (owners.IsLive resources.old) }
    requires top { IfSome owner (λ o. (top ≡ true) ↔ (parent_of o.number (owners_of resources.old) ≡ None)) }
    requires serves { Serves resources.old commons.old }
    requires fit { PlansFit (CanGo place.old.tree.now place.old.space.now place.old.shelf.now) resources.old.plans.standing }
    ensures acted { ActedOn (λ scene. where_there (option_map (λ o. o.number) owner) (owner_released commit top) scene) resources.old resources.new (hosting place.old.tree.now place.old.space.now place.old.shelf.now) (hosting place.new.tree.now place.new.space.now place.new.shelf.now) commons.old commons.new (λ events. E.emits out.old events out.new) }
    ensures balances { Balances resources.old resources.new commons.old commons.new }
    ensures nothing_left { IfSome owner (λ o. AllAt HoldsNothing o.number (owners_of resources.new)) }
    ensures places { resources.new.places ≡ resources.old.places }
    ensures stays { (n : ℕ) → has n (owners_of resources.new) ≡ has n (owners_of resources.old) }
    ensures tree { place.new.tree.ghost_name ≡ place.old.tree.ghost_name }
    ensures space { place.new.space.ghost_name ≡ place.old.space.ghost_name }
    ensures shelf { place.new.shelf.ghost_name ≡ place.old.shelf.ghost_name }
    ensures went { GoesOn place.old.tree.now place.new.tree.now place.old.space.now place.new.space.now }
    ensures left { AreLeft resources.old.plans.standing resources.new.plans.standing }
    ensures next_owner { resources.new.next_owner ≡ resources.old.next_owner }
    ensures next_serial { resources.new.next_serial ≡ resources.old.next_serial }
    ensures serves { Serves resources.new commons.new }
    ensures still_fit { PlansFit (CanGo place.new.tree.now place.new.space.now place.new.shelf.now) resources.new.plans.standing }
{
    match owner {
        None => {}
        Some(owner) => resources.release(owner, commit, top, place, commons, out),
    }
}

/// Discards an owner and all below it, which hold nothing, if there is one.
pub(crate) fn discard_owner<E: Emit>(resources: &mut Resources, owner: Option<OwnerId>, out: &mut E)
    requires live { IfSome owner (owners.IsLive resources.old) }
    requires empty { IfSome owner (λ o. AllAt HoldsNothing o.number (owners_of resources.old)) }
    ensures acted { (c : CommonState) → Acted (λ scene. where_there (option_map (λ o. o.number) owner) owner_gone scene) resources.old resources.new c c (λ events. E.emits out.old events out.new) }
    ensures balances { (c : CommonState) → Balances resources.old resources.new c c }
    ensures stays { (n : ℕ) → has n (owners_of resources.new) ≡ true → at n resources.new.places ≡ at n resources.old.places }
    ensures had { (n : ℕ) → has n (owners_of resources.new) ≡ true → has n (owners_of resources.old) ≡ true }
    ensures plans { resources.new.plans ≡ resources.old.plans }
    ensures next_owner { resources.new.next_owner ≡ resources.old.next_owner }
    ensures next_serial { resources.new.next_serial ≡ resources.old.next_serial }
{
    match owner {
        None => {}
        Some(owner) => resources.discard(owner, out),
    }
}

/// Deletes a context and all below it, if there is one.
pub(crate) fn drop_context<H: ResetHook, E: Emit>(
    tree: &mut ContextTree<H>,
    space: &mut Space,
    shelf: &mut Shelf<H>,
    context: Option<CtxId>,
    out: &mut E,
)
    requires agrees { Agrees tree.old space.old }
    requires hooks { HooksFit (stands_for tree.old space.old) shelf.old }
    requires live { IfSome context (IsLive tree.old) }
    requires apart { IfSome context (λ id. is_within id.number tree.old.current.number (stands_for tree.old space.old) ≡ false) }
    ensures did { MatchOption context (DidNothing tree.old tree.new space.old space.new shelf.old shelf.new) (λ id. Did (gone id.number (stands_for tree.old space.old)) tree.old tree.new space.old space.new shelf.old shelf.new) }
    ensures emits { MatchOption context (out.new ≡ out.old) (λ id. E.emits out.old (gone id.number (stands_for tree.old space.old)).events out.new) }
    ensures moves { Moves tree.old tree.new space.old space.new }
    ensures asked { Asks tree.old.account 0 space.old space.new }
    ensures stays { (n : ℕ) → has n tree.new.kept ≡ true → place_of tree.new n ≡ place_of tree.old n }
    ensures had { (n : ℕ) → has n tree.new.kept ≡ true → has n tree.old.kept ≡ true }
    ensures current { tree.new.current ≡ tree.old.current }
    ensures next { tree.new.next ≡ tree.old.next }
{
    match context {
        None => {}
        Some(context) => tree.gone(space, shelf, context, out),
    }
}

/// Deletes all below a context, if there is one.
pub(crate) fn clear_below<H: ResetHook, E: Emit>(
    tree: &mut ContextTree<H>,
    space: &mut Space,
    shelf: &mut Shelf<H>,
    context: Option<CtxId>,
    out: &mut E,
)
    requires agrees { Agrees tree.old space.old }
    requires hooks { HooksFit (stands_for tree.old space.old) shelf.old }
    requires live { IfSome context (IsLive tree.old) }
    requires apart { IfSome context (λ id. is_above id.number tree.old.current.number (stands_for tree.old space.old) ≡ false) }
    requires once { Once (stands_for tree.old space.old) }
    ensures did { MatchOption context (DidNothing tree.old tree.new space.old space.new shelf.old shelf.new) (λ id. Did (children_gone id.number (stands_for tree.old space.old)) tree.old tree.new space.old space.new shelf.old shelf.new) }
    ensures emits { MatchOption context (out.new ≡ out.old) (λ id. E.emits out.old (children_gone id.number (stands_for tree.old space.old)).events out.new) }
    ensures moves { Moves tree.old tree.new space.old space.new }
    ensures asked { Asks tree.old.account 0 space.old space.new }
    ensures stays { (n : ℕ) → has n tree.new.kept ≡ true → place_of tree.new n ≡ place_of tree.old n }
    ensures had { (n : ℕ) → has n tree.new.kept ≡ true → has n tree.old.kept ≡ true }
    ensures current { tree.new.current ≡ tree.old.current }
    ensures next { tree.new.next ≡ tree.old.next }
{
    match context {
        None => {}
        Some(context) => tree.clear_children(space, shelf, context, out),
    }
}

/// Moves an owner below another one, if both are there.
pub(crate) fn move_owner<E: Emit>(
    resources: &mut Resources,
    owner: Option<OwnerId>,
    to: Option<OwnerId>,
    out: &mut E,
)
    requires live { IfSome owner (owners.IsLive resources.old) }
    requires to { IfSome to (owners.IsLive resources.old) }
    requires there { IfSome owner (λ o. has o.number (owners_of resources.old) ≡ true) }
    requires to_there { IfSome to (λ t. has t.number (owners_of resources.old) ≡ true) }
    requires other { IfSome owner (λ o. IfSome to (λ t. t.number ≢ o.number)) }
    requires lone { IfSome owner (λ o. children o.number (owners_of resources.old) ≡ Empty) }
    requires once { Once (owners_of resources.old) }
    ensures acted { (c : CommonState) → Acted (λ scene. where_there (option_map (λ o. o.number) owner) (λ o. where_there (option_map (λ t. t.number) to) (owner_moved o)) scene) resources.old resources.new c c (λ events. E.emits out.old events out.new) }
    ensures balances { (c : CommonState) → Balances resources.old resources.new c c }
    ensures had { (n : ℕ) → has n (owners_of resources.new) ≡ true → has n (owners_of resources.old) ≡ true }
    ensures stays { (id : AnOwner) → owners.IsLive resources.old id → owners.IsLive resources.new id }
    ensures plans { resources.new.plans ≡ resources.old.plans }
    ensures next_owner { resources.new.next_owner ≡ resources.old.next_owner }
    ensures next_serial { resources.new.next_serial ≡ resources.old.next_serial }
{
    match owner {
        None => {}
        Some(owner) => match to {
            None => {}
            Some(to) => resources.move_owner(owner, to, out),
        },
    }
}

/// A context, where there is one and it is empty.
fn if_empty<H: ResetHook>(tree: &ContextTree<H>, context: Option<CtxId>) -> Option<CtxId>
    requires { IfSome context (IsLive tree.now) }
    ensures { (s : Space) → result ≡ only_empty context (stands_for tree.now s) }
{
    match context {
        None => None,
        Some(id) => {
            if tree.is_empty(id) {
                return Some(id);
            }
            None
        }
    }
}

/// The context that goes with a level that has this one: where the level is merged into the one above it, only if it is empty.
pub(crate) fn leaving<H: ResetHook>(
    tree: &ContextTree<H>,
    context: Option<CtxId>,
    merged: bool,
) -> Option<CtxId>
    requires { IfSome context (IsLive tree.now) }
    ensures { (s : Space) → result ≡ going merged context (stands_for tree.now s) }
{
    if merged {
        return if_empty(tree, context);
    }
    context
}
