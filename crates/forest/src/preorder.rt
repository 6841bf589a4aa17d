//! A walk that comes to each node before its children.
ghost use Rattle.std.specs.Prelude.{◌≡◌, ◌∷◌, [], ℕ, Some, None, MatchOption, IfSome};
ghost use Rattle.forest.specs.Forest.{at};
ghost use Rattle.forest.specs.Preorder.{Visited, preorder};

use crate::arena::LinkedForest;
use crate::id::NodeId;
use std::marker::Model;

/// A node where a walk stands, and how many levels it is below the roots.
#[derive(Clone, Copy)]
pub struct Spot {
    pub id: NodeId,
    pub depth: usize,
}

/// A node that a walk comes to.
#[derive(Drop)]
pub struct Visit<'a, T> {
    /// How many levels it is below the roots.
    pub depth: usize,
    pub id: NodeId,
    pub value: &'a T,
}

/// A walk of a forest, from the first root on, that comes to each node before its children. It takes no memory, however
/// deep the forest is.
///
/// Contracts see the nodes that are still to come.
#[derive(Drop)]
pub struct Preorder<'a, T> {
    nodes: &'a LinkedForest<T>,
    next: Option<Spot>,
}

impl<'a, T> Model for Preorder<'a, T> {
    ghost use Rattle.std.specs.Prelude.{List, IfSome};
    ghost use Rattle.forest.specs.Preorder.{Visited, visited_code, left_at, IsSpot};

    ghost Value = { List (Visited T) };

    ghost coded = { visited_code T.code };

    ghost view = { λ p. left_at p.nodes.now.forest p.next };

    ghost invariant = { λ p. IfSome p.next (IsSpot p.nodes.now) };
}

impl<'a, T> Preorder<'a, T> {
    /// The walk of a whole forest.
    pub fn new(nodes: &'a LinkedForest<T>) -> Preorder<'a, T>
        ensures { result ≡ preorder 0 nodes.now.forest }
    {
        Preorder {
            nodes,
            next: nodes.first().map(|id| Spot { id, depth: 0 }),
        }
    }

    /// The next node, while there is one.
    pub fn next(&mut self) -> Option<Visit<'a, T>>
        ensures node { MatchOption result (self.old ≡ []) (λ v. self.old ≡ record { depth = v.depth; number = v.id.number; value = v.value.now } ∷ self.new) }
        ensures end { result ≡ None → self.new ≡ [] }
    {
        let spot = self.next?;
        let nodes = self.nodes;
        self.next = nodes.onward(spot);
        Some(Visit {
            depth: spot.depth,
            id: spot.id,
            value: nodes.get(spot.id),
        })
    }
}
