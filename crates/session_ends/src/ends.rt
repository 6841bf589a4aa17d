//! The levels of a session's transaction end, and the session.
ghost use Rattle.std.specs.Prelude.{◌≡◌, ◌==◌, ◌<◌, ◌-◌, List, [], ◌++◌, ◌∷◌, length, drop, true, false, IfSome};
ghost use Rattle.addr_space.specs.Space.{Asks, held};
ghost use Rattle.addr_space.specs.Space.{Space as ASpace};
ghost use Rattle.reset_callbacks.specs.ShelfState.{ShelfState};
ghost use Rattle.session_owners.specs.ResourceState as owners;
ghost use Rattle.context_tree.specs.State.{Moves};
ghost use Rattle.subxact_stack.specs.declared.levels.Level.{Level as ALevel};
ghost use Rattle.subxact_stack.specs.Levels.{level_at, with_deepest};
ghost use Rattle.session_rules.specs.State.{LevelState, first_of, is_aborted, owner_of, top_context};
ghost use Rattle.session_rules.specs.Acts.{context_gone, in_order, switched};
ghost use Rattle.session_rules.specs.Ends.{aborted, cleaned_up, committed, level_released, subcommitted};
ghost use Rattle.session_owners.specs.Commons.{CommonState, Serves};
ghost use Rattle.session_store.specs.State.{levels_of};
ghost use Rattle.session_store.specs.Calls.{Acted, BothAlone, Keeps, StandsIn};
ghost use Rattle.session_ends.specs.Parts.{IsFreed, MayLeave, level_left};
ghost use Rattle.session_ends.specs.Portals.{IsEnding, number_in};

use crate::parts::{discard_owner, drop_context, leaving, release_owner};
use crate::place::Place;
use crate::portals::{LevelEnd, close_portals, settle_portals};
use addr_space::Space;
use owner_kinds::ExtKind;
use pgs_step::{Emit, OwnerId, What};
use reset_callbacks::{ResetHook, Shelf};
use session_owners::Commons;
use session_store::{Store, deepest};
use subxact_stack::{Level, Levels};

/// The owner of the deepest level, where it has one.
fn own_owner<H: ResetHook>(store: &Store<H>) -> Option<OwnerId>
    requires level { 0 < length store.now.levels }
    requires stands { (s : ASpace) × ((x : ShelfState) × ((c : CommonState) × StandsIn store.now s x c)) }
    ensures number { number_in result ≡ owner_of (first_of (levels_of store.now.levels)) }
    ensures live { IfSome result (owners.IsLive store.now.owners) }
{
    deepest(&store.levels).owner
}

/// The level above the deepest one.
fn level_above(levels: &Levels) -> Option<Level>
    requires { 0 < length levels.now }
    ensures { result ≡ level_at levels.now (length levels.now - 1) }
{
    levels.at(levels.depth() - 1).copied()
}

/// The owner of the level above the deepest one, where it has one.
fn owner_above<H: ResetHook>(store: &Store<H>) -> Option<OwnerId>
    requires level { 1 < length store.now.levels }
    requires stands { (s : ASpace) × ((x : ShelfState) × ((c : CommonState) × StandsIn store.now s x c)) }
    ensures number { number_in result ≡ owner_of (first_of (drop 1 (levels_of store.now.levels))) }
    ensures live { IfSome result (owners.IsLive store.now.owners) }
{
    match level_above(&store.levels) {
        Some(level) => level.owner,
        None => None,
    }
}

/// All that the owner of the deepest level holds is released.
fn release_level<H: ResetHook, K: ExtKind, E: Emit>(
    store: &mut Store<H>,
    commit: bool,
    space: &mut Space,
    shelf: &mut Shelf<H>,
    commons: &mut Commons<K>,
    out: &mut E,
)
    requires keeps { Keeps store.old space.old }
    requires ending { (done : LevelState → List LevelState → List LevelState) × IsEnding done store.old space.old shelf.old commons.old [] }
    requires serves { Serves store.old.owners commons.old }
    requires level { 0 < length store.old.levels }
    ensures acted { Acted (level_released commit (length store.old.levels == 1)) store.old store.new space.old space.new shelf.old shelf.new commons.old commons.new (λ events. E.emits out.old events out.new) }
    ensures alone { BothAlone store.old store.new space.old space.new commons.old commons.new }
    ensures asked { Asks store.old.tree.account 0 space.old space.new }
    ensures current { store.new.tree.current ≡ store.old.tree.current }
    ensures free { MayLeave store.new space.new shelf.new }
{
    let owner = deepest(&store.levels).owner;
    let top = store.levels.depth() == 1;
    let mut place = Place {
        tree: &mut store.tree,
        space,
        shelf,
    };
    release_owner(
        &mut store.owners,
        owner,
        commit,
        top,
        &mut place,
        commons,
        out,
    );
}

/// The deepest level goes, whose owner holds nothing: the owner is discarded, and the level's context goes, but where the level is
/// merged into the one above it only if it is empty. The context of the level above is the current one then, or the topmost one.
fn leave_level<H: ResetHook, E: Emit>(
    store: &mut Store<H>,
    merged: bool,
    space: &mut Space,
    shelf: &mut Shelf<H>,
    out: &mut E,
)
    requires keeps { Keeps store.old space.old }
    requires free { MayLeave store.old space.old shelf.old }
    requires level { 0 < length store.old.levels }
    ensures acted { (c : CommonState) → Acted (level_left merged) store.old store.new space.old space.new shelf.old shelf.new c c (λ events. E.emits out.old events out.new) }
    ensures keeps { Keeps store.new space.new }
    ensures moves { Moves store.old.tree store.new.tree space.old space.new }
    ensures asked { Asks store.old.tree.account 0 space.old space.new }
    ensures levels { (level : ALevel) × (store.old.levels ≡ store.new.levels ++ level ∷ []) }
{
    let above = store.context_above();
    let level = deepest(&store.levels);
    let _ = store.levels.pop();
    discard_owner(&mut store.owners, level.owner, out);
    store.tree.switch(above);
    let context = leaving(&store.tree, level.context, merged);
    drop_context(&mut store.tree, space, shelf, context, out);
}

/// Aborts the deepest level: its portals fail, all that its owner holds is released, and its active snapshots are popped. The
/// context for aborts is the current one then: `AbortTransaction` and `AbortSubTransaction`. It takes no memory.
pub fn abort<H: ResetHook, K: ExtKind, E: Emit>(
    store: &mut Store<H>,
    space: &mut Space,
    shelf: &mut Shelf<H>,
    commons: &mut Commons<K>,
    out: &mut E,
)
    requires keeps { Keeps store.old space.old }
    requires stands { StandsIn store.old space.old shelf.old commons.old }
    requires serves { Serves store.old.owners commons.old }
    requires level { 0 < length store.old.levels }
    ensures acted { Acted aborted store.old store.new space.old space.new shelf.old shelf.new commons.old commons.new (λ events. E.emits out.old events out.new) }
    ensures keeps { Keeps store.new space.new }
    ensures moves { Moves store.old.tree store.new.tree space.old space.new }
    ensures asked { Asks store.old.tree.account 0 space.old space.new }
    ensures levels { store.new.levels ≡ with_deepest (λ level. record level { aborted = true }) store.old.levels }
    ensures freed { IsFreed store.new space.new shelf.new }
{
    let number = store.depth();
    out.emit(What::AbortLevel(number));
    let context = store.tree.abort_context();
    store.switch(context);
    let own = own_owner(store);
    settle_portals(store, LevelEnd::Aborts(own), number, space, shelf, out);
    release_level(store, false, space, shelf, commons, out);
    store.owners.pop_from(number, out);
    store.levels.mark_aborted();
}

/// What is left of the deepest level goes, whose owner holds nothing: its portals go, the owner is discarded, and the context and
/// the level go.
fn sweep<H: ResetHook, E: Emit>(
    store: &mut Store<H>,
    space: &mut Space,
    shelf: &mut Shelf<H>,
    out: &mut E,
)
    requires keeps { Keeps store.old space.old }
    requires freed { IsFreed store.old space.old shelf.old }
    requires level { 0 < length store.old.levels }
    ensures acted { (c : CommonState) → Acted cleaned_up store.old store.new space.old space.new shelf.old shelf.new c c (λ events. E.emits out.old events out.new) }
    ensures keeps { Keeps store.new space.new }
    ensures moves { Moves store.old.tree store.new.tree space.old space.new }
    ensures asked { Asks store.old.tree.account 0 space.old space.new }
    ensures levels { (level : ALevel) × (store.old.levels ≡ store.new.levels ++ level ∷ []) }
{
    let number = store.depth();
    out.emit(What::CleanupLevel(number));
    settle_portals(store, LevelEnd::Goes, number, space, shelf, out);
    leave_level(store, false, space, shelf, out);
}

/// Cleans the deepest level up, which is aborted: its portals go, its owner is discarded, its context goes, and so does the
/// level. The context of the level above is the current one then, or the topmost one: `CleanupTransaction` and
/// `CleanupSubTransaction`. It takes no memory.
pub fn clean_up<H: ResetHook, E: Emit>(
    store: &mut Store<H>,
    space: &mut Space,
    shelf: &mut Shelf<H>,
    out: &mut E,
)
    requires keeps { Keeps store.old space.old }
    requires stands { (c : CommonState) × StandsIn store.old space.old shelf.old c }
    requires level { 0 < length store.old.levels }
    requires aborted { is_aborted (levels_of store.old.levels) ≡ true }
    ensures acted { (c : CommonState) → Acted cleaned_up store.old store.new space.old space.new shelf.old shelf.new c c (λ events. E.emits out.old events out.new) }
    ensures keeps { Keeps store.new space.new }
    ensures moves { Moves store.old.tree store.new.tree space.old space.new }
    ensures asked { Asks store.old.tree.account 0 space.old space.new }
    ensures levels { (level : ALevel) × (store.old.levels ≡ store.new.levels ++ level ∷ []) }
{
    sweep(store, space, shelf, out);
}

/// Rolls the deepest level back, which need not be whole: it aborts, and is cleaned up. The context of the level above is the
/// current one then, or the topmost one. It takes no memory.
pub fn roll_back<H: ResetHook, K: ExtKind, E: Emit>(
    store: &mut Store<H>,
    space: &mut Space,
    shelf: &mut Shelf<H>,
    commons: &mut Commons<K>,
    out: &mut E,
)
    requires keeps { Keeps store.old space.old }
    requires stands { StandsIn store.old space.old shelf.old commons.old }
    requires serves { Serves store.old.owners commons.old }
    requires level { 0 < length store.old.levels }
    ensures acted { Acted (in_order (aborted ∷ cleaned_up ∷ [])) store.old store.new space.old space.new shelf.old shelf.new commons.old commons.new (λ events. E.emits out.old events out.new) }
    ensures keeps { Keeps store.new space.new }
    ensures moves { Moves store.old.tree store.new.tree space.old space.new }
    ensures asked { Asks store.old.tree.account 0 space.old space.new }
    ensures levels { (level : ALevel) × (store.old.levels ≡ store.new.levels ++ level ∷ []) }
{
    abort(store, space, shelf, commons, out);
    sweep(store, space, shelf, out);
}

/// Commits level 1: its portals end, what its owner still holds is released with a warning, the stack of active snapshots is
/// popped, and then the owner, the level's context and the level go. The topmost context is the current one then: `CommitTransaction`. It
/// takes no memory.
pub fn commit_top<H: ResetHook, K: ExtKind, E: Emit>(
    store: &mut Store<H>,
    space: &mut Space,
    shelf: &mut Shelf<H>,
    commons: &mut Commons<K>,
    out: &mut E,
)
    requires keeps { Keeps store.old space.old }
    requires stands { StandsIn store.old space.old shelf.old commons.old }
    requires serves { Serves store.old.owners commons.old }
    requires level { length store.old.levels ≡ 1 }
    ensures acted { Acted committed store.old store.new space.old space.new shelf.old shelf.new commons.old commons.new (λ events. E.emits out.old events out.new) }
    ensures keeps { Keeps store.new space.new }
    ensures moves { Moves store.old.tree store.new.tree space.old space.new }
    ensures asked { Asks store.old.tree.account 0 space.old space.new }
    ensures levels { store.new.levels ≡ [] }
{
    out.emit(What::CommitLevel(1));
    close_portals(store, space, shelf, commons, out);
    release_level(store, true, space, shelf, commons, out);
    store.owners.pop_from(1, out);
    leave_level(store, false, space, shelf, out);
}

/// Commits the deepest level, which isn't level 1: its portals and its active snapshots are the level above's then, what its
/// owner still holds is released with a warning, and the owner and the level go. The context of the level above is the current one then, and the
/// level's own context stays, as a context below that, unless no memory was taken there and no context stands below it:
/// `CommitSubTransaction`. It takes no memory.
pub fn subcommit<H: ResetHook, K: ExtKind, E: Emit>(
    store: &mut Store<H>,
    space: &mut Space,
    shelf: &mut Shelf<H>,
    commons: &mut Commons<K>,
    out: &mut E,
)
    requires keeps { Keeps store.old space.old }
    requires stands { StandsIn store.old space.old shelf.old commons.old }
    requires serves { Serves store.old.owners commons.old }
    requires level { 1 < length store.old.levels }
    ensures acted { Acted subcommitted store.old store.new space.old space.new shelf.old shelf.new commons.old commons.new (λ events. E.emits out.old events out.new) }
    ensures keeps { Keeps store.new space.new }
    ensures moves { Moves store.old.tree store.new.tree space.old space.new }
    ensures asked { Asks store.old.tree.account 0 space.old space.new }
    ensures levels { (level : ALevel) × (store.old.levels ≡ store.new.levels ++ level ∷ []) }
{
    let number = store.depth();
    out.emit(What::CommitLevel(number));
    let above = owner_above(store);
    settle_portals(store, LevelEnd::Merges(above), number, space, shelf, out);
    release_level(store, true, space, shelf, commons, out);
    store.owners.lower_stack(number);
    leave_level(store, true, space, shelf, out);
}

/// The session ends, in no transaction: the topmost context becomes the current one and goes with all below it, and the
/// account holds nothing then: `MemoryContextDelete` of `TopMemoryContext`. It takes no memory.
pub fn close<H: ResetHook, E: Emit>(
    store: &mut Store<H>,
    space: &mut Space,
    shelf: &mut Shelf<H>,
    out: &mut E,
)
    requires keeps { Keeps store.old space.old }
    requires stands { (c : CommonState) × StandsIn store.old space.old shelf.old c }
    requires level { store.old.levels ≡ [] }
    ensures acted { (c : CommonState) → Acted (in_order (switched top_context ∷ context_gone top_context ∷ [])) store.old store.new space.old space.new shelf.old shelf.new c c (λ events. E.emits out.old events out.new) }
    ensures owners { store.new.owners ≡ store.old.owners }
    ensures keeps { Keeps store.new space.new }
    ensures moves { Moves store.old.tree store.new.tree space.old space.new }
    ensures asked { Asks store.old.tree.account 0 space.old space.new }
    ensures held { held space.new store.old.tree.account ≡ 0 }
{
    let top = store.tree.top();
    store.tree.switch(top);
    store.tree.gone(space, shelf, top, out);
}
