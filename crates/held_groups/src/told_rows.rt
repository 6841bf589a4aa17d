//! Rows that clauses alone read.
ghost use Rattle.std.specs.Prelude.{◌≡◌, [], ◌∷◌, ◌++◌};

use agg_rules::Row;
use block_mem::told::{Tells, Told};

// One more row, behind the others.
#[derive(Drop)]
struct More<'a> {
    rows: &'a Told<Row>,
    row: Row,
}

struct Rule;

impl<'a> Tells<More<'a>, Row> for Rule {
    ghost told = { λ m. m.rows.now.entries ++ m.row ∷ [] };
}

/// The rows with one more, behind the others.
pub fn more_rows(rows: &Told<Row>, row: Row) -> Told<Row>
    ensures { result.entries ≡ rows.now.entries ++ row ∷ [] }
{
    Told::of::<More, Rule>(&More { rows, row })
}
