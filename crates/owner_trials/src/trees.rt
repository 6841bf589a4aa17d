ghost use Rattle.std.specs.Prelude.{◌≡◌, IfOk};
ghost use Rattle.forest.specs.Forest.{Empty, Node};

use forest::{LinkedForest, NodeId};
use std::alloc::{AllocFailed, Global};
use std::test::Fail;

/// A root 1 with the children 3 and 2, the newer one first.
#[derive(Drop)]
struct Family {
    nodes: LinkedForest<u32>,
    root: NodeId,
    older: NodeId,
    newer: NodeId,
}

fn make_family(alloc: Global) -> Result<Family, AllocFailed<u32>>
    ensures forest { IfOk result (λ f. f.nodes.forest ≡ Node 1 10 (Node 3 30 Empty (Node 2 20 Empty Empty)) Empty) }
    ensures places { IfOk result (λ f. f.nodes.places ≡ Node 1 f.root.slot (Node 3 f.newer.slot Empty (Node 2 f.older.slot Empty Empty)) Empty) }
    ensures root { IfOk result (λ f. f.root.number ≡ 1) }
    ensures older { IfOk result (λ f. f.older.number ≡ 2) }
    ensures newer { IfOk result (λ f. f.newer.number ≡ 3) }
{
    let mut nodes = LinkedForest::new(alloc);
    let root = nodes.insert_root(1, 10)?;
    let older = nodes.insert_child(root, 2, 20)?;
    let newer = nodes.insert_child(root, 3, 30)?;
    Ok(Family {
        nodes,
        root,
        older,
        newer,
    })
}

#[test]
fn links_name_neighbours(rt: HostRuntime) -> Result<(), Fail> {
    let family = make_family(rt.alloc())?;
    let nodes = &family.nodes;
    assert_eq!(rt; nodes.len(), 3);
    assert_eq!(rt; nodes.first(), Some(family.root));
    assert_eq!(rt; nodes.first_child(family.root), Some(family.newer));
    assert_eq!(rt; nodes.next_sibling(family.newer), Some(family.older));
    assert_eq!(rt; nodes.next_sibling(family.older), None);
    assert_eq!(rt; nodes.parent(family.older), Some(family.root));
    assert_eq!(rt; nodes.parent(family.root), None);
    Ok(())
}

#[test]
fn walk_comes_to_children_first(rt: HostRuntime) -> Result<(), Fail> {
    let family = make_family(rt.alloc())?;
    let nodes = &family.nodes;
    assert_eq!(rt; nodes.first_leaf(family.root), family.newer);
    assert_eq!(rt; nodes.following(family.newer, family.root), family.older);
    assert_eq!(rt; nodes.following(family.older, family.root), family.root);
    Ok(())
}

#[test]
fn data_changes_and_leaves_go(rt: HostRuntime) -> Result<(), Fail> {
    let Family {
        mut nodes,
        root,
        older,
        newer,
    } = make_family(rt.alloc())?;
    *nodes.get_mut(older) = 21;
    assert_eq!(rt; *nodes.get(older), 21);
    nodes.move_to(older, newer);
    assert_eq!(rt; nodes.first_child(newer), Some(older));
    assert!(rt; nodes.is_above(root, older));
    assert!(rt; !nodes.is_above(older, newer));
    assert_eq!(rt; nodes.remove(older), 21);
    assert_eq!(rt; nodes.first_child(root), Some(newer));
    assert_eq!(rt; nodes.len(), 2);
    Ok(())
}

#[test]
fn next_slot_is_known_before(rt: HostRuntime) -> Result<(), Fail> {
    let mut nodes = LinkedForest::new(rt.alloc());
    let first = nodes.next_slot();
    let root = nodes.insert_root(1, 10u32)?;
    assert_eq!(rt; first, Some(root.slot));
    let second = nodes.next_slot();
    let child = nodes.insert_child(root, 2, 20)?;
    assert_eq!(rt; second, Some(child.slot));
    Ok(())
}

#[test]
fn each_node_comes_before_its_children(rt: HostRuntime) -> Result<(), Fail> {
    let Family {
        mut nodes,
        newer,
        ..
    } = make_family(rt.alloc())?;
    nodes.insert_child(newer, 4, 40)?;
    let mut walk = nodes.preorder();
    for want in [(0, 1, 10), (1, 3, 30), (2, 4, 40), (1, 2, 20)] {
        let visit = walk.next().ok_or("too few nodes")?;
        assert_eq!(rt; (visit.depth, visit.id.number, *visit.value), want);
    }
    assert!(rt; walk.next().is_none());
    Ok(())
}
