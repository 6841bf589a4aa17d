//! The release of a phase of an owner and of all below it.
ghost use Rattle.std.specs.Prelude.{◌≡◌, ◌↔◌, ◌≢◌, ℕ, ◌+◌, ◌<◌, ◌≤◌, true, false, None, Some, List, [], ◌∷◌, All, if◌then◌else◌};
ghost use Rattle.pgs_step.specs.declared.ids.KindId.{KindId as Kind};
ghost use Rattle.pgs_step.specs.declared.events.What.{What};
ghost use Rattle.forest.specs.Forest.{Once, at, parent_of, changed, AllNodes};
ghost use Rattle.forest.specs.Forested.{IsPlaced};
ghost use Rattle.owner_kinds.specs.KindTable.{IsKind};
ghost use Rattle.owner_items.specs.ItemList.{uses};
ghost use Rattle.owner_core.specs.Owners.{Owner, tree_of, held, subtree_of, AllAt};
ghost use Rattle.owner_core.specs.Locks.{steps_of_locks, locks_below};
ghost use Rattle.owner_core.specs.Released.{own_released, released};
ghost use Rattle.owner_core.specs.Steps.{own_steps, top_locks, release_steps};

use crate::locks::{Locks, do_locks};
use crate::node::Node;
use crate::place::owner_at;
use crate::release_items::release_items;
use crate::table::Release;
use forest::{LinkedForest, NodeId};
use pgs_step::{Emit, Phase};

/// What is released: a phase, at commit or at abort, and whether the owner is the topmost one, so that all
/// locks of the session go at once.
#[derive(Clone, Copy)]
pub struct How {
    pub phase: Phase,
    pub commit: bool,
    pub top: bool,
}

fn each_lock(nodes: &LinkedForest<Node>, id: NodeId, commit: bool) -> Locks
    requires { IsPlaced nodes.now id }
    ensures { steps_of_locks result ≡ top_locks false commit id.number (parent_of id.number nodes.now.forest) }
{
    match nodes.parent(id) {
        None => Locks::Stay,
        Some(parent) => {
            if commit {
                Locks::Pass(owner_at(id), owner_at(parent))
            } else {
                Locks::Release(owner_at(id))
            }
        }
    }
}

/// What happens to the locks of an owner below the one that is released.
fn locks_of_below(nodes: &LinkedForest<Node>, id: NodeId, how: How) -> Locks
    requires { IsPlaced nodes.now id }
    ensures { steps_of_locks result ≡ locks_below how.top how.commit id.number (parent_of id.number nodes.now.forest) }
{
    if how.top {
        Locks::Stay
    } else {
        each_lock(nodes, id, how.commit)
    }
}

/// What happens to the locks of the owner that is released.
fn locks_of_top(nodes: &LinkedForest<Node>, id: NodeId, how: How) -> Locks
    requires { IsPlaced nodes.now id }
    ensures { steps_of_locks result ≡ top_locks how.top how.commit id.number (parent_of id.number nodes.now.forest) }
{
    if how.top {
        Locks::ReleaseAll(owner_at(id))
    } else {
        each_lock(nodes, id, how.commit)
    }
}

/// Releases a phase of one owner.
#[inline(always)]
fn release_own<R: Release, E: Emit>(
    node: &mut Node,
    number: u64,
    how: How,
    locks: Locks,
    table: &mut R,
    out: &mut E,
)
    requires fit { R.IsFit table.old }
    requires kinds { All (λ item. IsKind (R.kind_table table.old) item.kind) node.old.owner.items }
    requires counted { (kind : Kind) (key : ℕ) → uses kind key node.old.owner.items ≤ R.counted table.old kind key }
    ensures owner { node.new.owner ≡ own_released (R.kind_table table.old) how.phase node.old.owner }
    ensures steps { (events : List What) × R.does table.old (own_steps (R.kind_table table.old) how.phase how.commit number node.old.owner (steps_of_locks locks)) events table.new × E.emits out.old events out.new }
    ensures fit { R.IsFit table.new }
    ensures kinds { R.kind_table table.new ≡ R.kind_table table.old }
    ensures counted { (kind : Kind) (key : ℕ) → R.counted table.new kind key + uses kind key node.old.owner.items ≡ R.counted table.old kind key + uses kind key node.new.owner.items }
{
    node.begun = true;
    match how.phase {
        Phase::Locks => do_locks(locks, table, out),
        Phase::BeforeLocks => release_items(
            &mut node.items,
            number,
            Phase::BeforeLocks,
            how.commit,
            table,
            out,
        ),
        Phase::AfterLocks => release_items(
            &mut node.items,
            number,
            Phase::AfterLocks,
            how.commit,
            table,
            out,
        ),
    }
}

/// Releases a phase of the owner at a node.
#[inline(always)]
fn release_one<R: Release, E: Emit>(
    nodes: &mut LinkedForest<Node>,
    id: NodeId,
    how: How,
    locks: Locks,
    table: &mut R,
    out: &mut E,
)
    requires placed { IsPlaced nodes.old id }
    requires once { Once nodes.old.forest }
    requires fit { R.IsFit table.old }
    requires kinds { (owner : Owner) → at id.number (tree_of nodes.old.forest) ≡ Some owner → All (λ item. IsKind (R.kind_table table.old) item.kind) owner.items }
    requires counted { (owner : Owner) → at id.number (tree_of nodes.old.forest) ≡ Some owner → (kind : Kind) (key : ℕ) → uses kind key owner.items ≤ R.counted table.old kind key }
    ensures owners { tree_of nodes.new.forest ≡ changed id.number (own_released (R.kind_table table.old) how.phase) (tree_of nodes.old.forest) }
    ensures places { nodes.new.places ≡ nodes.old.places }
    ensures once { Once nodes.new.forest }
    ensures was { (owner : Owner) × (at id.number (tree_of nodes.old.forest) ≡ Some owner)
        × ((kind : Kind) (key : ℕ) → R.counted table.new kind key + uses kind key owner.items ≡ R.counted table.old kind key + uses kind key (own_released (R.kind_table table.old) how.phase owner).items)
        × ((events : List What) × R.does table.old (own_steps (R.kind_table table.old) how.phase how.commit id.number owner (steps_of_locks locks)) events table.new × E.emits out.old events out.new) }
    ensures fit { R.IsFit table.new }
    ensures kinds { R.kind_table table.new ≡ R.kind_table table.old }
{
    let node = nodes.get_mut(id);
    release_own(node, id.number, how, locks, table, out);
}

/// Releases a phase of the owner at a node and of all below it: each behind what is below it.
#[inline(always)]
pub fn release_tree<R: Release, E: Emit>(
    nodes: &mut LinkedForest<Node>,
    owner: NodeId,
    how: How,
    table: &mut R,
    out: &mut E,
)
    requires placed { IsPlaced nodes.old owner }
    requires fit { R.IsFit table.old }
    requires kinds { AllAt (λ o. All (λ item. IsKind (R.kind_table table.old) item.kind) o.items) owner.number (tree_of nodes.old.forest) }
    requires counted { (kind : Kind) (key : ℕ) → held kind key (subtree_of owner.number (tree_of nodes.old.forest)) ≤ R.counted table.old kind key }
    ensures owners { tree_of nodes.new.forest ≡ released (R.kind_table table.old) how.phase owner.number (tree_of nodes.old.forest) }
    ensures places { nodes.new.places ≡ nodes.old.places }
    ensures steps { (events : List What) × R.does table.old (release_steps (R.kind_table table.old) how.phase how.commit how.top owner.number (tree_of nodes.old.forest)) events table.new × E.emits out.old events out.new }
    ensures fit { R.IsFit table.new }
    ensures kinds { R.kind_table table.new ≡ R.kind_table table.old }
    ensures counted { (kind : Kind) (key : ℕ) → R.counted table.new kind key + held kind key (tree_of nodes.old.forest) ≡ R.counted table.old kind key + held kind key (tree_of nodes.new.forest) }
{
    let mut current = nodes.first_leaf(owner);
    while current.number != owner.number {
        let locks = locks_of_below(nodes, current, how);
        release_one(nodes, current, how, locks, table, out);
        current = nodes.following(current, owner);
    }
    let locks = locks_of_top(nodes, owner, how);
    release_one(nodes, owner, how, locks, table, out);
}
