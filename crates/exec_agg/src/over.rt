//! A pass over the rows of a file.
ghost use Rattle.std.specs.Prelude.{◌≡◌, ◌⊎◌, ◌≤◌, [], length, take, Some, None, Ok, IfErr, OnOk};
ghost use Rattle.addr_space.specs.Footprint.{Agrees, Moves};
ghost use Rattle.agg_rules.specs.Steps.{meets_all, stand_behind};
ghost use Rattle.held_groups.specs.declared.held.TheConstants.{MOST_ROWS};
ghost use Rattle.held_groups.specs.Held.{footprint, HasTotals};
ghost use Rattle.row_files.specs.RowBytes.{HasRows};
ghost use Rattle.agg_pass.specs.PassState.{HasSpilled, Spends, way_of};
ghost use Rattle.agg_pass.specs.Spilled.{IsOf, KeepsFiles};

use addr_space::Space;
use agg_pass::AggPass;
use agg_rules::{NodeError, Row};
use block_mem::told::Told;
use row_files::{row_at, rows_in};
use temp_store::TempStore;

/// Meets the rows of a file in order, until one is refused. The file stays as it is.
pub(crate) fn go_over(
    pass: &mut AggPass,
    space: &mut Space,
    temp: &mut TempStore,
    file: u32,
    rows: &Told<Row>,
) -> Result<(), NodeError>
    requires agrees { Agrees (footprint pass.old.groups) space.old }
    requires totals { HasTotals pass.old.groups space.old }
    requires fresh { pass.old.rows ≡ [] }
    requires no_file { pass.old.file ≡ None }
    requires rows { HasRows temp.old file rows.now.entries }
    requires few { length rows.now.entries ≤ MOST_ROWS }
    ensures rows { OnOk result (pass.new.rows ≡ rows.now.entries) }
    ensures reached { pass.new.rows ≡ take (length pass.new.rows) rows.now.entries }
    ensures budget { pass.new.budget ≡ pass.old.budget }
    ensures totals { HasTotals pass.new.groups space.new }
    ensures spilled { HasSpilled pass.new temp.new }
    ensures moves { Moves (footprint pass.old.groups) (footprint pass.new.groups) space.old space.new }
    ensures limit { temp.new.limit ≡ temp.old.limit }
    ensures others { KeepsFiles (IsOf pass.old.file) temp.old (IsOf pass.new.file) temp.new }
    ensures went { meets_all pass.old.budget (Ok (way_of pass.old space.old temp.old)) pass.new.rows ≡ Ok (way_of pass.new space.new temp.new) }
    ensures refused { IfErr result (λ e. (e ≡ NodeError.Memory) ⊎ (stand_behind pass.old.budget (way_of pass.old space.old temp.old) rows.now.entries ≡ record { pass = way_of pass.new space.new temp.new; refused = Some e })) }
    ensures spends { Spends pass.old.groups.state.layout.account (way_of pass.old space.old temp.old) (way_of pass.new space.new temp.new) space.old space.new temp.old temp.new }
{
    let count = rows_in(temp, file) as u32;
    let mut at = 0;
    while at < count {
        let row = row_at(temp, file, at);
        if let Err(refused) = pass.meet(space, temp, row) {
            return Err(refused);
        }
        at += 1;
    }
    Ok(())
}
