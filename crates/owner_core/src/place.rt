//! Where owners lie in their forest.
ghost use Rattle.std.specs.Prelude.{◌≡◌, IfSome, false, Some};
ghost use Rattle.std.specs.Option.{option_map, IfNone};
ghost use Rattle.forest.specs.Forest.{has, at};
ghost use Rattle.owner_core.specs.Owners.{entered};

use crate::node::Node;
use forest::{LinkedForest, NodeId};
use pgs_step::OwnerId;

/// The owner that lies at a node.
pub fn owner_at(id: NodeId) -> OwnerId
    ensures { result ≡ record { number = id.number; slot = id.slot } }
{
    OwnerId {
        number: id.number,
        slot: id.slot,
    }
}

/// The node at which an owner lies.
pub fn node_at(owner: OwnerId) -> NodeId
    ensures { result ≡ record { number = owner.number; slot = owner.slot } }
{
    NodeId {
        number: owner.number,
        slot: owner.slot,
    }
}

/// Puts a new owner in, below its parent if it has one.
pub fn insert(
    nodes: &mut LinkedForest<Node>,
    parent: Option<OwnerId>,
    number: u64,
    node: Node,
) -> Option<OwnerId>
    requires parent { IfSome parent (λ p. at p.number nodes.old.places ≡ Some p.slot) }
    requires fresh { has number nodes.old.forest ≡ false }
    ensures number { IfSome result (λ owner. owner.number ≡ number) }
    ensures forest { IfSome result (λ owner. nodes.new.forest ≡ entered (option_map (λ p. p.number) parent) number node nodes.old.forest) }
    ensures places { IfSome result (λ owner. nodes.new.places ≡ entered (option_map (λ p. p.number) parent) number owner.slot nodes.old.places) }
    ensures refused { IfNone result (nodes.new ≡ nodes.old) }
{
    let made = match parent {
        None => nodes.insert_root(number, node),
        Some(parent) => nodes.insert_child(node_at(parent), number, node),
    };
    match made {
        Ok(id) => Some(owner_at(id)),
        Err(_) => None,
    }
}
