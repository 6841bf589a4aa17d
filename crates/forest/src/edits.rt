//! Writes of links.
ghost use Rattle.std.specs.Prelude.{◌≡◌, ◌≢◌, ◌≤◌, ◌^◌, ℕ, Some, None, IfSome};
ghost use Rattle.std.specs.Option.{IfNone};
ghost use Rattle.slab.specs.Slab.{get, slab_len, HasRoomFor, ContainsKey};
ghost use Rattle.forest.specs.Edits.{Sets, SetsPrevious, Skips};

use crate::links::Linked;
use slab::Slab;

/// Writes the first child of a node.
pub fn set_first_child<T>(nodes: &mut Slab<Linked<T>>, slot: u32, child: Option<u32>)
    requires { ContainsKey nodes.old slot }
    ensures { Sets nodes.old nodes.new slot (λ m. record m { first_child = child }) }
{
    nodes[slot as usize].first_child = child;
}

fn set_next<T>(nodes: &mut Slab<Linked<T>>, slot: u32, next: Option<u32>)
    requires { ContainsKey nodes.old slot }
    ensures { Sets nodes.old nodes.new slot (λ m. record m { next = next }) }
{
    nodes[slot as usize].next = next;
}

fn set_sibling_before<T>(nodes: &mut Slab<Linked<T>>, slot: u32, previous: Option<u32>)
    requires { ContainsKey nodes.old slot }
    ensures { Sets nodes.old nodes.new slot (λ m. record m { previous = previous }) }
{
    nodes[slot as usize].previous = previous;
}

/// Writes where a node stands: its parent, and the siblings before and behind it.
pub fn set_place<T>(nodes: &mut Slab<Linked<T>>, slot: u32, parent: Option<u32>, next: Option<u32>)
    requires { ContainsKey nodes.old slot }
    ensures { Sets nodes.old nodes.new slot (λ m. record m { parent = parent; previous = None; next = next }) }
{
    let node = &mut nodes[slot as usize];
    node.parent = parent;
    node.previous = None;
    node.next = next;
}

/// Writes the sibling before a node, if one is named.
pub fn set_previous<T>(nodes: &mut Slab<Linked<T>>, at: Option<u32>, previous: Option<u32>)
    requires { IfSome at (ContainsKey nodes.old) }
    ensures { SetsPrevious nodes.old nodes.new at previous }
{
    if let Some(slot) = at {
        set_sibling_before(nodes, slot, previous);
    }
}

/// Links the sibling before a node, or the parent of a first child, to what stands behind it.
pub fn skip<T>(
    nodes: &mut Slab<Linked<T>>,
    before: Option<u32>,
    parent: Option<u32>,
    next: Option<u32>,
)
    requires before { IfSome before (ContainsKey nodes.old) }
    requires parent { IfSome parent (ContainsKey nodes.old) }
    ensures { Skips nodes.old nodes.new before parent next }
{
    match (before, parent) {
        (Some(slot), _) => set_next(nodes, slot, next),
        (None, Some(slot)) => set_first_child(nodes, slot, next),
        (None, None) => {}
    }
}

/// The first root, once the node at a slot is gone and `next` stood behind it.
pub fn front_without(first: Option<u32>, slot: u32, next: Option<u32>) -> Option<u32>
    ensures gone { first ≡ Some slot → result ≡ next }
    ensures stays { first ≢ Some slot → result ≡ first }
{
    match first {
        Some(front) if front == slot => next,
        _ => first,
    }
}

/// Makes room for one more node, and says in which slot it will lie.
pub fn vacant_slot<T>(nodes: &mut Slab<Linked<T>>) -> Option<u32>
    ensures slots { nodes.new.slots ≡ nodes.old.slots }
    ensures vacant { nodes.new.vacant_key ≡ nodes.old.vacant_key }
    ensures room { IfSome result (λ slot. HasRoomFor nodes.new 1) }
    ensures next { IfSome result (λ slot. nodes.new.vacant_key ≡ slot) }
{
    if nodes.reserve(1).is_err() {
        return None;
    }
    slot_at(nodes.vacant_key())
}

/// The slot of a key, where it is small enough to name one.
pub fn slot_at(key: usize) -> Option<u32>
    ensures some { IfSome result (λ slot. slot ≡ key) }
    ensures none { IfNone result (2 ^ 32 ≤ key) }
{
    u32::try_from(key).ok()
}
