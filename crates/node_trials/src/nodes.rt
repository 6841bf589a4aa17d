ghost use Rattle.std.specs.Prelude.{◌≡◌, ◌+◌, ◌≤◌, [], length, OnOk};
ghost use Rattle.exec_agg.specs.declared.stage.Stage.TheVariants.{Putting, Giving};
ghost use Rattle.exec_agg.specs.Nodes.{Holds};

use addr_space::Space;
use agg_rules::NodeError;
use exec_agg::AggNode;
use std::test::*;
use temp_store::TempStore;

/// Puts so many rows of one object: row r has value r and the group (31 * object + 7 * r) mod 1000 mod groups.
fn put_rows(
    node: &mut AggNode,
    space: &mut Space,
    temp: &mut TempStore,
    object: u32,
    rows: u32,
    groups: u32,
) -> Result<(), NodeError>
    requires putting { node.old.stage ≡ Putting }
    requires holds { Holds node.old space.old temp.old }
    requires none { node.old.rows ≡ [] }
    requires few { rows ≤ 1000 }
    requires objects { object ≤ 1000 }
    requires groups { 1 ≤ groups }
    ensures putting { node.new.stage ≡ Putting }
    ensures holds { OnOk result (Holds node.new space.new temp.new) }
{
    let mut at = 0;
    while at < rows {
        let group = (31 * object + 7 * at) % 1000 % groups;
        if let Err(refused) = node.put(space, temp, group, at) {
            return Err(refused);
        }
        at += 1;
    }
    Ok(())
}

/// Takes so many groups, and answers whether each of them has one row.
fn each_has_one_row(
    node: &mut AggNode,
    space: &mut Space,
    temp: &mut TempStore,
    groups: u32,
) -> Result<bool, NodeError>
    requires giving { node.old.stage ≡ Giving }
    requires holds { Holds node.old space.old temp.old }
    ensures giving { OnOk result (node.new.stage ≡ Giving) }
    ensures holds { OnOk result (Holds node.new space.new temp.new) }
{
    let mut at = 0;
    while at < groups {
        match node.next(space, temp) {
            Ok(Some((_, 1, _))) => {}
            Ok(_) => return Ok(false),
            Err(refused) => return Err(refused),
        }
        at += 1;
    }
    Ok(true)
}

type Group = Option<(u32, u64, u64)>;

/// Puts four rows of two groups, and takes three times what comes.
fn four_rows(
    node: &mut AggNode,
    space: &mut Space,
    temp: &mut TempStore,
) -> Result<(Group, Group, Group), NodeError>
    requires putting { node.old.stage ≡ Putting }
    requires holds { Holds node.old space.old temp.old }
    requires none { node.old.rows ≡ [] }
    ensures holds { OnOk result (Holds node.new space.new temp.new) }
{
    put_rows(node, space, temp, 3, 4, 2)?;
    node.finish();
    let first = node.next(space, temp)?;
    let second = node.next(space, temp)?;
    let third = node.next(space, temp)?;
    Ok((first, second, third))
}

/// Puts a thousand rows of as many groups; answers whether each group has one row, and what comes behind them.
fn thousand_rows(
    node: &mut AggNode,
    space: &mut Space,
    temp: &mut TempStore,
) -> Result<(bool, Group), NodeError>
    requires putting { node.old.stage ≡ Putting }
    requires holds { Holds node.old space.old temp.old }
    requires none { node.old.rows ≡ [] }
    ensures holds { OnOk result (Holds node.new space.new temp.new) }
{
    put_rows(node, space, temp, 1, 1000, 1000)?;
    node.finish();
    let each = each_has_one_row(node, space, temp, 1000)?;
    let last = node.next(space, temp)?;
    Ok((each, last))
}

/// Four rows of two groups, of which one is held at once: the rows of the other one are spilled and gone over.
#[test]
fn two_groups_are_given(rt: HostRuntime) -> Result<(), Fail> {
    let mut space = Space::new(rt.alloc(), 1, 100_000)?;
    let mut temp = TempStore::new(rt.alloc(), 1000);
    let mut node = AggNode::create(rt.alloc(), &mut space, 0, 1)?;
    let given = four_rows(&mut node, &mut space, &mut temp)?;
    node.close(&mut space, &mut temp);
    assert_eq!(rt; given, (Some((1, 2, 2)), Some((0, 2, 4)), None));
    assert_eq!(rt; (space.held(0), temp.held(), temp.written()), (0, 0, 16));
    Ok(())
}

/// A thousand groups, of which 64 are held at once, take 16 passes. The first spills 936 rows, and each other one 64 less
/// than the one before it: 7,320 rows of 8 bytes in all.
#[test]
fn sixteen_passes(rt: HostRuntime) -> Result<(), Fail> {
    let mut space = Space::new(rt.alloc(), 1, 100_000)?;
    let mut temp = TempStore::new(rt.alloc(), 100_000);
    let mut node = AggNode::create(rt.alloc(), &mut space, 0, 64)?;
    let given = thousand_rows(&mut node, &mut space, &mut temp)?;
    node.close(&mut space, &mut temp);
    assert_eq!(rt; given, (true, None));
    assert_eq!(rt;
        (space.held(0), temp.held(), temp.written()),
        (0, 0, 58_560)
    );
    Ok(())
}
