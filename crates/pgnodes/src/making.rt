//! The rows that an aggregate is made over.
ghost use Rattle.std.specs.Prelude.{◌≡◌, ◌<◌, ◌≤◌, [], None, Some, codes};
ghost use Rattle.agg_rules.specs.Rows.{four_rows};
ghost use Rattle.pgnodes.specs.Lines.{written};
ghost use Rattle.pgnodes.specs.Rows.{row_made, rows_made, four_rows_asked, two_groups};
ghost use Rattle.pgnodes.specs.Plays.{played, rows_played};
ghost use Rattle.pgnodes.specs.declared.lines.TheConstants.{MOST_OBJECT, MOST_ROWS};

use crate::lines::Aggregate;
use agg_rules::{NodeError, Row};

/// The row of a place, counted from 0.
pub fn row_at(aggregate: &Aggregate, place: u32) -> Row
    requires object { aggregate.now.object ≤ MOST_OBJECT }
    requires groups { 0 < aggregate.now.groups }
    requires place { place ≤ MOST_ROWS }
    ensures { result ≡ row_made aggregate.now place }
{
    let value = (31 * aggregate.object + 7 * place) % 1_000;
    Row {
        group: value % aggregate.groups,
        value: place,
    }
}

/// The definitions on a line of four rows. A caller cites a clause.
pub fn worked()
    ensures line { written four_rows_asked ≡ codes "agg 3 4 2 64" }
    ensures rows { rows_made four_rows_asked ≡ four_rows }

    // It comes to two groups. Where one group is held at once, two rows of the other one are spilled, and give the same
    // groups. In a store of one row the second of them isn't taken. A block doesn't fit where one byte of it is missing.
    ensures played { played four_rows_asked 16777216 67108864 ≡ record { groups = two_groups; refused = None; asked = 8192; written = 0 } }
    ensures spilled { rows_played 1 16777216 67108864 four_rows ≡ record { groups = two_groups; refused = None; asked = 0; written = 16 } }
    ensures full { rows_played 1 16777216 8 four_rows ≡ record { groups = []; refused = Some NodeError.Full; asked = 0; written = 8 } }
    ensures no_space { played four_rows_asked 8191 67108864 ≡ record { groups = []; refused = Some NodeError.NoSpace; asked = 0; written = 0 } }
{}

#[test]
fn four_rows_fall_into_two_groups(rt: HostRuntime) {
    let aggregate = Aggregate {
        object: 3,
        rows: 4,
        groups: 2,
        budget: 64,
    };
    for (place, group) in [(0, 1), (1, 0), (2, 1), (3, 0)] {
        assert_eq!(rt;
            row_at(&aggregate, place),
            Row {
                group,
                value: place
            }
        );
    }
}
