//! An aggregate that a line asks for, performed by a node.
ghost use Rattle.std.specs.Prelude.{◌≡◌, ◌⊎◌, ◌+◌, ◌<◌, ℕ, List, [], ◌∷◌, ◌++◌, length, take, Some, None, Ok, IfOk, IfErr, OnOk, OnErr, IfSome, IfNone, slice_get};
ghost use Rattle.addr_space.specs.Space.{accounts, held};
ghost use Rattle.addr_space.specs.Footprint.{Moves};
ghost use Rattle.temp_store.specs.Temp.{HasNoFile};
ghost use Rattle.agg_rules.specs.Rows.{results_of};
ghost use Rattle.agg_rules.specs.Steps.{meets_all, stand_behind};
ghost use Rattle.held_groups.specs.Held.{footprint};
ghost use Rattle.agg_pass.specs.PassState.{Spends, way_of};
ghost use Rattle.agg_pass.specs.Spilled.{IsOf, KeepsFiles};
ghost use Rattle.exec_agg.specs.declared.stage.Stage.TheVariants.{Putting, Giving};
ghost use Rattle.exec_agg.specs.Nodes.{Holds};
ghost use Rattle.pgnodes.specs.Lines.{IsInRange};
ghost use Rattle.pgnodes.specs.Rows.{rows_made};
ghost use Rattle.pgnodes.specs.Plays.{Comes, idle, begun, played, rows_played};
ghost use Rattle.pgnodes.specs.Turns.{Alone, Leaves, left_of};

use crate::lines::Aggregate;
use crate::making::row_at;
use addr_space::Space;
use agg_rules::NodeError;
use exec_agg::AggNode;
use std::alloc::Global;
use temp_store::TempStore;

/// Takes the groups that an aggregate gives.
///
/// Contracts see what it was told in all.
pub trait Groups {
    ghost told: { Self → List (ℕ × ℕ × ℕ) };

    /// Takes a group, how many rows it has, and the sum of their values.
    fn tell(&mut self, group: u32, count: u64, sum: u64)
        ensures told { told self.new ≡ told self.old ++ (group, count, sum) ∷ [] };
}

// Puts the rows of an aggregate in order, until one is refused.
fn put_rows(
    aggregate: &Aggregate,
    node: &mut AggNode,
    space: &mut Space,
    temp: &mut TempStore,
) -> Result<(), NodeError>
    requires in_range { IsInRange aggregate.now }
    requires putting { node.old.stage ≡ Putting }
    requires fresh { node.old.rows ≡ [] }
    requires met { node.old.pass.rows ≡ [] }
    requires holds { Holds node.old space.old temp.old }
    ensures rows { OnOk result (node.new.rows ≡ rows_made aggregate.now) }
    ensures met { node.new.pass.rows ≡ node.new.rows }
    ensures given { node.new.given ≡ node.old.given }
    ensures place { node.new.place ≡ node.old.place }
    ensures stage { node.new.stage ≡ Putting }
    ensures budget { node.new.pass.budget ≡ node.old.pass.budget }
    ensures holds { Holds node.new space.new temp.new }
    ensures moves { Moves (footprint node.old.pass.groups) (footprint node.new.pass.groups) space.old space.new }
    ensures others { KeepsFiles (IsOf node.old.pass.file) temp.old (IsOf node.new.pass.file) temp.new }
    ensures limit { temp.new.limit ≡ temp.old.limit }
    ensures went { OnOk result (meets_all node.old.pass.budget (Ok (way_of node.old.pass space.old temp.old)) (rows_made aggregate.now) ≡ Ok (way_of node.new.pass space.new temp.new)) }
    ensures refused { IfErr result (λ e. (e ≡ NodeError.Memory) ⊎ (stand_behind node.old.pass.budget (way_of node.old.pass space.old temp.old) (rows_made aggregate.now) ≡ record { pass = way_of node.new.pass space.new temp.new; refused = Some e })) }
    ensures spends { Spends node.old.pass.groups.state.layout.account (way_of node.old.pass space.old temp.old) (way_of node.new.pass space.new temp.new) space.old space.new temp.old temp.new }
{
    for place in 0..aggregate.rows {
        let row = row_at(aggregate, place);
        node.put(space, temp, row.group, row.value)?;
    }
    Ok(())
}

// The next group, and what is left behind it.
fn next_group(
    node: &mut AggNode,
    space: &mut Space,
    temp: &mut TempStore,
) -> Result<Option<(u32, u64, u64)>, NodeError>
    requires giving { node.old.stage ≡ Giving }
    requires holds { Holds node.old space.old temp.old }
    requires alone { Alone node.old space.old temp.old }
    ensures rows { node.new.rows ≡ node.old.rows }
    ensures stage { OnOk result (node.new.stage ≡ Giving) }
    ensures holds { Holds node.new space.new temp.new }
    ensures alone { Alone node.new space.new temp.new }
    ensures moves { Moves (footprint node.old.pass.groups) (footprint node.new.pass.groups) space.old space.new }
    ensures others { KeepsFiles (IsOf node.old.pass.file) temp.old (IsOf node.new.pass.file) temp.new }
    ensures limit { temp.new.limit ≡ temp.old.limit }
    ensures some { IfOk result (λ it. IfSome it (λ group. (slice_get (results_of node.old.rows) node.old.given ≡ Some group) × (node.new.given ≡ node.old.given + 1))) }
    ensures none { IfOk result (λ it. IfNone it ((node.old.given ≡ length (results_of node.old.rows)) × (node.new.given ≡ node.old.given))) }
    ensures err_given { OnErr result (node.new.given ≡ node.old.given) }
    ensures gave { IfOk result (λ it. IfSome it (λ group. Leaves (left_of space.old.limit temp.old.limit node.old) (group ∷ []) (left_of space.new.limit temp.new.limit node.new) space.old space.new temp.old temp.new)) }
    ensures ended { IfOk result (λ it. IfNone it (Leaves (left_of space.old.limit temp.old.limit node.old) [] idle space.old space.new temp.old temp.new)) }
    ensures refused { IfErr result (λ e. (e ≡ NodeError.Memory) ⊎ Leaves (left_of space.old.limit temp.old.limit node.old) [] (record idle { refused = Some e }) space.old space.new temp.old temp.new) }
{
    node.standing();
    node.counted();
    node.next(space, temp)
}

// Tells all groups that a node gives, until a call is refused.
fn tell_groups<G: Groups>(
    node: &mut AggNode,
    space: &mut Space,
    temp: &mut TempStore,
    groups: &mut G,
) -> Result<(), NodeError>
    requires giving { node.old.stage ≡ Giving }
    requires fresh { node.old.given ≡ 0 }
    requires holds { Holds node.old space.old temp.old }
    requires alone { Alone node.old space.old temp.old }
    ensures holds { Holds node.new space.new temp.new }
    ensures moves { Moves (footprint node.old.pass.groups) (footprint node.new.pass.groups) space.old space.new }
    ensures others { KeepsFiles (IsOf node.old.pass.file) temp.old (IsOf node.new.pass.file) temp.new }
    ensures limit { temp.new.limit ≡ temp.old.limit }
    ensures told { G.told groups.new ≡ G.told groups.old ++ take node.new.given (results_of node.old.rows) }
    ensures all { OnOk result (node.new.given ≡ length (results_of node.old.rows)) }
    ensures ended { OnOk result (Leaves (left_of space.old.limit temp.old.limit node.old) (take node.new.given (results_of node.old.rows)) idle space.old space.new temp.old temp.new) }
    ensures refused { IfErr result (λ e. (e ≡ NodeError.Memory) ⊎ Leaves (left_of space.old.limit temp.old.limit node.old) (take node.new.given (results_of node.old.rows)) (record idle { refused = Some e }) space.old space.new temp.old temp.new) }
{
    while let Some((group, count, sum)) = next_group(node, space, temp)? {
        groups.tell(group, count, sum);
    }
    Ok(())
}

// Puts all rows and tells all groups, until a call is refused.
fn put_and_tell<G: Groups>(
    aggregate: &Aggregate,
    node: &mut AggNode,
    space: &mut Space,
    temp: &mut TempStore,
    groups: &mut G,
) -> Result<(), NodeError>
    requires in_range { IsInRange aggregate.now }
    requires putting { node.old.stage ≡ Putting }
    requires fresh { node.old.rows ≡ [] }
    requires met { node.old.pass.rows ≡ [] }
    requires given { node.old.given ≡ 0 }
    requires place { node.old.place ≡ 0 }
    requires budget { node.old.pass.budget ≡ aggregate.now.budget }
    requires holds { Holds node.old space.old temp.old }
    requires alone { Alone node.old space.old temp.old }
    requires begun { way_of node.old.pass space.old temp.old ≡ begun space.old.limit temp.old.limit }
    ensures holds { Holds node.new space.new temp.new }
    ensures moves { Moves (footprint node.old.pass.groups) (footprint node.new.pass.groups) space.old space.new }
    ensures others { KeepsFiles (IsOf node.old.pass.file) temp.old (IsOf node.new.pass.file) temp.new }
    ensures limit { temp.new.limit ≡ temp.old.limit }
    ensures told { (k : ℕ) × (G.told groups.new ≡ G.told groups.old ++ take k (results_of (rows_made aggregate.now))) }
    ensures all { OnOk result (G.told groups.new ≡ G.told groups.old ++ results_of (rows_made aggregate.now)) }
    ensures ended { OnOk result (Comes (rows_played aggregate.now.budget space.old.limit temp.old.limit (rows_made aggregate.now)) None (G.told groups.old) (G.told groups.new) space.old space.new temp.old temp.new) }
    ensures refused { IfErr result (λ e. (e ≡ NodeError.Memory) ⊎ Comes (rows_played aggregate.now.budget space.old.limit temp.old.limit (rows_made aggregate.now)) (Some e) (G.told groups.old) (G.told groups.new) space.old space.new temp.old temp.new) }
{
    put_rows(aggregate, node, space, temp)?;
    node.finish();
    tell_groups(node, space, temp, groups)
}

/// Performs an aggregate and tells its groups, in the order of their first rows, each with its count and its sum. The space
/// and the store have to be empty, and are empty again behind each call.
///
/// `NoSpace` and `Full` come where the definition says so, and the groups that came before were told. `Memory` comes where
/// there is no memory for what lies outside the space. Then only the first groups were told.
pub fn play<G: Groups>(
    alloc: Global,
    aggregate: &Aggregate,
    space: &mut Space,
    temp: &mut TempStore,
    groups: &mut G,
) -> Result<(), NodeError>
    requires in_range { IsInRange aggregate.now }
    requires account { 0 < accounts space.old }
    requires nothing { held space.old 0 ≡ 0 }
    requires no_file { HasNoFile temp.old }
    ensures ok { OnOk result (Comes (played aggregate.now space.old.limit temp.old.limit) None (G.told groups.old) (G.told groups.new) space.old space.new temp.old temp.new) }
    ensures refused { IfErr result (λ e. (e ≡ NodeError.Memory) ⊎ Comes (played aggregate.now space.old.limit temp.old.limit) (Some e) (G.told groups.old) (G.told groups.new) space.old space.new temp.old temp.new) }
    ensures all { OnOk result (G.told groups.new ≡ G.told groups.old ++ results_of (rows_made aggregate.now)) }
    ensures told { (k : ℕ) × (G.told groups.new ≡ G.told groups.old ++ take k (results_of (rows_made aggregate.now))) }
    ensures nothing { held space.new 0 ≡ 0 }
    ensures accounts { accounts space.new ≡ accounts space.old }
    ensures space_limit { space.new.limit ≡ space.old.limit }
    ensures no_file { HasNoFile temp.new }
    ensures store_limit { temp.new.limit ≡ temp.old.limit }
{
    let mut node = AggNode::create(alloc, space, 0, aggregate.budget)?;
    node.counted();
    let played = put_and_tell(aggregate, &mut node, space, temp, groups);
    node.close(space, temp);
    played
}
