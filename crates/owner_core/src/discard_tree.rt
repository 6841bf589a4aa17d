//! The end of an owner and of all below it.
ghost use Rattle.std.specs.Prelude.{◌≡◌, ◌≢◌, ℕ, true, List, [], ◌∷◌, map};
ghost use Rattle.pgs_step.specs.declared.events.What.TheVariants.{OwnerGone};
ghost use Rattle.forest.specs.Forest.{has, at, removed};
ghost use Rattle.forest.specs.Forested.{IsPlaced};
ghost use Rattle.forest.specs.Walk.{order_at};

use crate::node::Node;
use forest::{LinkedForest, NodeId};
use owner_items::Items;
use pgs_step::{Emit, What};

/// Takes out an owner and all below it: each behind what is below it. Their rooms are left for others.
pub fn discard_tree<E: Emit>(
    nodes: &mut LinkedForest<Node>,
    left: &mut Vec<Items>,
    owner: NodeId,
    out: &mut E,
)
    requires { IsPlaced nodes.old owner }
    ensures rooms { nodes.new.forest ≡ removed owner.number nodes.old.forest }
    ensures none_new { (other : ℕ) → has other nodes.new.places ≡ true → has other nodes.old.places ≡ true }
    ensures stays { (other : ℕ) → has other (removed owner.number nodes.old.forest) ≡ true → at other nodes.new.places ≡ at other nodes.old.places }
    ensures emits { E.emits out.old (map (λ n. OwnerGone n) (order_at owner.number nodes.old.forest)) out.new }
{
    let mut current = nodes.first_leaf(owner);
    while current.number != owner.number {
        let next = nodes.following(current, owner);
        nodes.remove(current).leave(left);
        out.emit(What::OwnerGone(current.number));
        current = next;
    }
    nodes.remove(owner).leave(left);
    out.emit(What::OwnerGone(owner.number));
}
