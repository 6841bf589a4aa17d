//! A forest by links in one slab.
ghost use Rattle.std.specs.Prelude.{◌≡◌, ◌≢◌, ℕ, ◌+◌, ◌≤◌, ◌^◌, true, false, ◌∷◌, Some, None, IfOk, OnErr, IfErr, IfSome};
ghost use Rattle.std.specs.Option.{option_map, IfNone};
ghost use Rattle.std.specs.Borrow.{sem};
ghost use Rattle.slab.specs.Slab.{get, ContainsKey};
ghost use Rattle.forest.specs.Forest.{Empty, Node, Once, has, size, at, first, children, next_of, parent_of, is_above, put, removed, moved};
ghost use Rattle.forest.specs.Walk.{lead, follows};
ghost use Rattle.forest.specs.Preorder.{preorder, level, from_node, behind_node, left_at, left_from, left_behind, IsSpot};
ghost use Rattle.forest.specs.Forested.{IsPlaced, Named};

use crate::edits::{
    front_without, set_first_child, set_place, set_previous, skip, slot_at, vacant_slot,
};
use crate::id::NodeId;
use crate::links::Linked;
use crate::preorder::{Preorder, Spot};
use slab::Slab;
use std::alloc::{AllocFailed, Global};
use std::marker::Model;

/// A forest, kept by links. A call takes the same time, however many nodes there are, unless it is a walk.
///
/// Contracts see the forest by numbers, each of which stands once, beside it where each number lies, and where the
/// next one will.
#[derive(Drop)]
pub struct LinkedForest<T> {
    nodes: Slab<Linked<T>>,
    first: Option<u32>,
}

impl<T> Model for LinkedForest<T> {
    ghost use Rattle.forest.specs.Forested.{Forested, forested_code};

    ghost Value = { Forested T };

    ghost coded = { forested_code T.code };

    ghost use Rattle.forest.specs.Links.{seen, IsSound};

    ghost view = { λ s. seen s.nodes s.first };

    ghost invariant = { λ s. IsSound s.nodes s.first };
}

impl<T> LinkedForest<T> {
    ghost use Rattle.forest.specs.Lends.{lends_at};

    /// No node.
    pub fn new(alloc: Global) -> Self
        ensures forest { result.forest ≡ Empty }
        ensures places { result.places ≡ Empty }
    {
        LinkedForest {
            nodes: Slab::new(alloc),
            first: None,
        }
    }

    /// How many nodes there are.
    pub fn len(&self) -> usize
        ensures value { result ≡ size self.now.forest }
        ensures once { Once self.now.forest }
    {
        self.nodes.len()
    }

    /// The slot that the next node gets. There is none where all slots that can be named hold nodes; then no node can
    /// be made.
    pub fn next_slot(&self) -> Option<u32>
        ensures some { IfSome result (λ slot. slot ≡ self.now.vacant) }
        ensures none { IfNone result (2 ^ 32 ≤ self.now.vacant) }
    {
        slot_at(self.nodes.vacant_key())
    }

    /// Makes a node without children that is the first root. Its number must be a new one. Where there is
    /// no memory the data comes back, and nothing changes.
    pub fn insert_root(&mut self, number: u64, value: T) -> Result<NodeId, AllocFailed<T>>
        requires { has number self.old.forest ≡ false }
        ensures number { IfOk result (λ id. id.number ≡ number) }
        ensures slot { IfOk result (λ id. id.slot ≡ self.old.vacant) }
        ensures forest { IfOk result (λ id. self.new.forest ≡ Node number value Empty self.old.forest) }
        ensures places { IfOk result (λ id. self.new.places ≡ Node number id.slot Empty self.old.places) }
        ensures refused { OnErr result (self.new ≡ self.old) }
        ensures value_returned { IfErr result (λ failed. failed.value ≡ value) }
    {
        let Some(slot) = vacant_slot(&mut self.nodes) else {
            return Err(AllocFailed { value });
        };
        self.nodes.insert_reserved(Linked {
            number,
            value,
            parent: None,
            first_child: None,
            previous: None,
            next: self.first,
        });
        set_previous(&mut self.nodes, self.first, Some(slot));
        self.first = Some(slot);
        Ok(NodeId { number, slot })
    }

    /// Makes a node without children that is the first child of another one. Its number must be a new one.
    /// Where there is no memory the data comes back, and nothing changes.
    pub fn insert_child(
        &mut self,
        parent: NodeId,
        number: u64,
        value: T,
    ) -> Result<NodeId, AllocFailed<T>>
        requires parent { IsPlaced self.old parent }
        requires fresh { has number self.old.forest ≡ false }
        ensures number { IfOk result (λ id. id.number ≡ number) }
        ensures slot { IfOk result (λ id. id.slot ≡ self.old.vacant) }
        ensures forest { IfOk result (λ id. self.new.forest ≡ put parent.number number value Empty self.old.forest) }
        ensures places { IfOk result (λ id. self.new.places ≡ put parent.number number id.slot Empty self.old.places) }
        ensures refused { OnErr result (self.new ≡ self.old) }
        ensures value_returned { IfErr result (λ failed. failed.value ≡ value) }
    {
        let Some(slot) = vacant_slot(&mut self.nodes) else {
            return Err(AllocFailed { value });
        };
        let next = self.nodes[parent.slot as usize].first_child;
        self.nodes.insert_reserved(Linked {
            number,
            value,
            parent: Some(parent.slot),
            first_child: None,
            previous: None,
            next,
        });
        set_previous(&mut self.nodes, next, Some(slot));
        set_first_child(&mut self.nodes, parent.slot, Some(slot));
        Ok(NodeId { number, slot })
    }

    /// Takes a node without children out, and answers its data.
    #[inline(always)]
    pub fn remove(&mut self, id: NodeId) -> T
        requires placed { IsPlaced self.old id }
        requires leaf { children id.number self.old.forest ≡ Empty }
        ensures value { at id.number self.old.forest ≡ Some result }
        ensures forest { self.new.forest ≡ removed id.number self.old.forest }
        ensures places { self.new.places ≡ removed id.number self.old.places }
        ensures stays { (other : ℕ) → other ≢ id.number → at other self.new.places ≡ at other self.old.places }
    {
        let node = &self.nodes[id.slot as usize];
        let (previous, above, next) = (node.previous, node.parent, node.next);
        skip(&mut self.nodes, previous, above, next);
        set_previous(&mut self.nodes, next, previous);
        self.first = front_without(self.first, id.slot, next);
        let Linked { value, .. } = self.nodes.remove(id.slot as usize);
        value
    }

    /// Makes a node, with all below it, the first child of another one, which must not be below it.
    pub fn move_to(&mut self, id: NodeId, parent: NodeId)
        requires placed { IsPlaced self.old id }
        requires parent { IsPlaced self.old parent }
        requires other { parent.number ≢ id.number }
        requires apart { is_above id.number parent.number self.old.forest ≡ false }
        ensures forest { self.new.forest ≡ moved id.number parent.number self.old.forest }
        ensures places { self.new.places ≡ moved id.number parent.number self.old.places }
        ensures stays { (other : ℕ) → at other self.new.places ≡ at other self.old.places }
        ensures node_stands { has id.number self.old.forest ≡ true }
        ensures parent_stands { has parent.number self.old.forest ≡ true }
    {
        let node = &self.nodes[id.slot as usize];
        let (previous, above, next) = (node.previous, node.parent, node.next);
        skip(&mut self.nodes, previous, above, next);
        set_previous(&mut self.nodes, next, previous);
        self.first = front_without(self.first, id.slot, next);
        let child = self.nodes[parent.slot as usize].first_child;
        set_place(&mut self.nodes, id.slot, Some(parent.slot), child);
        set_previous(&mut self.nodes, child, Some(id.slot));
        set_first_child(&mut self.nodes, parent.slot, Some(id.slot));
    }

    /// The data of a node.
    pub fn get(&self, id: NodeId) -> &T
        requires { IsPlaced self.now id }
        ensures { at id.number self.now.forest ≡ Some result.now }
    {
        &self.nodes[id.slot as usize].value
    }

    /// The data of a node, to be changed.
    pub fn get_mut(&mut self, id: NodeId) -> &mut T
        requires { IsPlaced self.old id }
        ensures* lends { sem 𝓛 (lends_at T.row self.entry id.number result) }
        ensures value { at id.number self.old.forest ≡ Some result.now }
    {
        self.nodes[id.slot as usize].value_mut()
    }

    /// The first root.
    pub fn first(&self) -> Option<NodeId>
        ensures { Named self.now result (first self.now.forest) }
    {
        named(&self.nodes, self.first)
    }

    /// The parent of a node that is no root.
    pub fn parent(&self, id: NodeId) -> Option<NodeId>
        requires { IsPlaced self.now id }
        ensures { Named self.now result (parent_of id.number self.now.forest) }
    {
        named(&self.nodes, self.nodes[id.slot as usize].parent)
    }

    /// Whether the second node is below the first one. A walk goes up from the second one, and another one over what is
    /// below the first; the one that ends first decides.
    pub fn is_above(&self, id: NodeId, other: NodeId) -> bool
        requires node { IsPlaced self.now id }
        requires other { IsPlaced self.now other }
        ensures { result ≡ is_above id.number other.number self.now.forest }
    {
        let _ = &self.nodes;
        let mut last = other;
        let mut seen = id;
        while let Some(parent) = self.parent(last) {
            if parent.number == id.number {
                return true;
            }
            let Some(next) = self.next_below(seen, id) else {
                return false;
            };
            last = parent;
            seen = next;
        }
        false
    }

    /// Where a walk of what is below `top` goes from a node: to its first child, or behind it.
    fn next_below(&self, id: NodeId, top: NodeId) -> Option<NodeId>
        requires { IsPlaced self.now id }
        ensures placed { IfSome result (IsPlaced self.now) }
        ensures next { IfSome result (λ next. left_from id.number self.now.forest ≡ 1 + left_from next.number self.now.forest) }
        ensures end { IfNone result (left_from id.number self.now.forest ≤ 1 + left_behind top.number self.now.forest) }
    {
        let _ = &self.nodes;
        match self.first_child(id) {
            Some(child) => Some(child),
            None => self.next_beside(id, top),
        }
    }

    /// Where it goes behind a node and all below it: to the next sibling, or to that of the nearest node above that has
    /// one and isn't `top`.
    fn next_beside(&self, id: NodeId, top: NodeId) -> Option<NodeId>
        requires { IsPlaced self.now id }
        ensures placed { IfSome result (IsPlaced self.now) }
        ensures next { IfSome result (λ next. left_behind id.number self.now.forest ≡ left_from next.number self.now.forest) }
        ensures end { IfNone result (left_behind id.number self.now.forest ≤ left_behind top.number self.now.forest) }
    {
        let _ = &self.nodes;
        let mut last = id;
        while last.number != top.number {
            if let Some(next) = self.next_sibling(last) {
                return Some(next);
            }
            last = self.parent(last)?;
        }
        None
    }

    /// The first child of a node that has one.
    pub fn first_child(&self, id: NodeId) -> Option<NodeId>
        requires { IsPlaced self.now id }
        ensures { Named self.now result (first (children id.number self.now.forest)) }
    {
        named(&self.nodes, self.nodes[id.slot as usize].first_child)
    }

    /// The sibling that stands behind a node, if one does.
    pub fn next_sibling(&self, id: NodeId) -> Option<NodeId>
        requires { IsPlaced self.now id }
        ensures { Named self.now result (next_of id.number self.now.forest) }
    {
        named(&self.nodes, self.nodes[id.slot as usize].next)
    }

    /// Where the walk of all that is below a node begins: its first child's first child, and so on, or the
    /// node itself. The walk comes to each node behind all its children.
    pub fn first_leaf(&self, id: NodeId) -> NodeId
        requires { IsPlaced self.now id }
        ensures number { result.number ≡ lead id.number (children id.number self.now.forest) }
        ensures placed { IsPlaced self.now result }
        ensures stands { has id.number self.now.forest ≡ true }
        ensures once { Once self.now.forest }
    {
        let _ = &self.nodes;
        let mut leaf = id;
        while let Some(child) = self.first_child(leaf) {
            leaf = child;
        }
        leaf
    }

    /// Where that walk of what is below `top` goes from a node: to the first leaf of the next sibling, or to
    /// the parent.
    pub fn following(&self, id: NodeId, top: NodeId) -> NodeId
        requires placed { IsPlaced self.now id }
        requires top { IsPlaced self.now top }
        requires below { has id.number (children top.number self.now.forest) ≡ true }
        ensures number { result.number ≡ follows id.number top.number (children top.number self.now.forest) }
        ensures placed { IsPlaced self.now result }
    {
        let _ = &self.nodes;
        match self.next_sibling(id) {
            Some(next) => self.first_leaf(next),
            None => self.parent(id).unwrap_or(top),
        }
    }

    /// All nodes, each before its children, from the first root on.
    pub fn preorder(&self) -> Preorder<'_, T>
        ensures { result ≡ preorder 0 self.now.forest }
    {
        Preorder::new(self)
    }

    /// Where such a walk goes from a node: to its first child, or behind it.
    pub(crate) fn onward(&self, spot: Spot) -> Option<Spot>
        requires { IsSpot self.now spot }
        ensures spot { IfSome result (IsSpot self.now) }
        ensures left { (a : T) → at spot.id.number self.now.forest ≡ Some a → from_node 0 spot.id.number self.now.forest ≡ record { depth = spot.depth; number = spot.id.number; value = a } ∷ left_at self.now.forest result }
    {
        let _ = &self.nodes;
        prove!(spot.depth < self.len());
        match self.first_child(spot.id) {
            Some(id) => Some(Spot {
                id,
                depth: spot.depth + 1,
            }),
            None => self.behind(spot),
        }
    }

    /// Where such a walk goes behind a node and all below it: to the next sibling, or to that of the nearest node above
    /// that has one.
    fn behind(&self, spot: Spot) -> Option<Spot>
        requires { IsSpot self.now spot }
        ensures spot { IfSome result (IsSpot self.now) }
        ensures left { behind_node 0 spot.id.number self.now.forest ≡ left_at self.now.forest result }
    {
        let _ = &self.nodes;
        let mut last = spot;
        loop {
            if let Some(id) = self.next_sibling(last.id) {
                return Some(Spot {
                    id,
                    depth: last.depth,
                });
            }
            let id = self.parent(last.id)?;
            last = Spot {
                id,
                depth: last.depth - 1,
            };
        }
    }
}

/// The node at a link.
fn named<T>(nodes: &Slab<Linked<T>>, link: Option<u32>) -> Option<NodeId>
    requires { IfSome link (ContainsKey nodes.now) }
    ensures none { link ≡ None → result ≡ None }
    ensures some { IfSome link (λ slot. IfSome (get nodes.now slot) (λ node. result ≡ Some (record { number = node.number; slot = slot }))) }
{
    let slot = link?;
    Some(NodeId {
        number: nodes[slot as usize].number,
        slot,
    })
}
