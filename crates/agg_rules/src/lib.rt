//! What a hash aggregate gives of its rows, and the passes by which it gives it where it holds few groups at once.
//!
//! It stands for PostgreSQL's nodeAgg.c in its hashed form: the groups that fit are held in a hash table, and the rows
//! of the others are spilled to temporary files and read again later.
#![tactic(auto)]

ghost use Rattle.std.specs.Prelude.{◌≡◌, ℕ, ◌+◌, ◌*◌, ◌<◌, ◌≤◌, List, [], ◌∷◌, ◌++◌, length, drop, nat_eq, false, if◌then◌else◌, Ok};
ghost use Rattle.std.specs.List.{list_any};
ghost use Rattle.agg_rules.specs.declared.TheConstants.{ROW_BYTES};
ghost use Rattle.agg_rules.specs.declared.Row.{Row};
ghost use Rattle.agg_rules.specs.Rows.{groups_of, rows_of, results_of, four_rows};
ghost use Rattle.agg_rules.specs.Passes.{kept_groups, spilled_rows, pass_results, passes_of, given_by};
ghost use Rattle.agg_rules.specs.Steps.{Pass, joined, meets_all};

use thiserror::Error;

/// A row that comes in.
#[derive(Clone, Copy, PartialEq, Eq, Debug)]
pub struct Row {
    /// The group that it belongs to.
    pub group: u32,
    /// What is summed.
    pub value: u32,
}

/// The bytes that a pass keeps of a group that it holds: its number, its count and its sum.
pub const GROUP_BYTES: u32 = 24;

/// The bytes that are spilled of a row: its group and its value.
pub const ROW_BYTES: u32 = 8;

/// Why an aggregate could not go on.
#[derive(Clone, Copy, PartialEq, Eq, Debug, Error)]
pub enum NodeError {
    /// The account would hold more than it may.
    #[error("out of space")]
    NoSpace,
    /// The temporary files would hold more than they may.
    #[error("temporary files are full")]
    Full,
    /// There is no memory.
    #[error("no memory")]
    Memory,
}

/// The laws of the passes over rows. A caller names it and cites a clause. A budget is how many groups a pass holds.
pub fn passing()
    // Whatever the budget, all passes together give each group once, in the order of the groups' first rows, with the
    // count and the sum over all rows.
    ensures whole { (budget : ℕ) (rows : List Row) → 0 < budget → given_by budget rows ≡ results_of rows }

    // One pass gives the first groups, and what it spills has all that the others give.
    ensures pass { (budget : ℕ) (rows : List Row) → results_of rows ≡ pass_results budget rows ++ results_of (spilled_rows budget rows) }
    ensures groups { (budget : ℕ) (rows : List Row) → groups_of (spilled_rows budget rows) ≡ drop budget (groups_of rows) }

    // It spills fewer rows than it goes over.
    ensures less { (budget : ℕ) (row : Row) (rows : List Row) → 0 < budget → length (spilled_rows budget (row ∷ rows)) ≤ length rows }
{}

/// The laws of one row more. A caller names it and cites a clause.
pub fn growing()
    // A pass holds the group of the row too, where it is new and there is room for it, and spills the row where it holds
    // the group neither before nor then.
    ensures kept { (budget : ℕ) (rows : List Row) (row : Row) → kept_groups budget (rows ++ row ∷ []) ≡ joined budget (kept_groups budget rows) row.group }
    ensures spilled { (budget : ℕ) (rows : List Row) (row : Row) → spilled_rows budget (rows ++ row ∷ []) ≡ spilled_rows budget rows ++ (if list_any (nat_eq row.group) (kept_groups budget (rows ++ row ∷ [])) then [] else row ∷ []) }

    // A group has the row too, if it is its own, and one that no row has, has none.
    ensures own { (group : ℕ) (rows : List Row) (row : Row) → rows_of group (rows ++ row ∷ []) ≡ rows_of group rows ++ (if nat_eq row.group group then row ∷ [] else []) }
    ensures fresh { (group : ℕ) (rows : List Row) → list_any (nat_eq group) (groups_of rows) ≡ false → rows_of group rows ≡ [] }
{}

/// The laws of a pass that met all its rows and was not refused. A caller names it and cites a clause.
pub fn meeting()
    // It holds the first groups, and the store lost 8 bytes of room for each row of the others.
    ensures kept { (budget : ℕ) (rows : List Row) (pass last : Pass) → pass.kept ≡ [] → meets_all budget (Ok pass) rows ≡ Ok last → last.kept ≡ kept_groups budget rows }
    ensures room { (budget : ℕ) (rows : List Row) (pass last : Pass) → pass.kept ≡ [] → meets_all budget (Ok pass) rows ≡ Ok last → last.room + ROW_BYTES * length (spilled_rows budget rows) ≡ pass.room }
{}

/// Four rows of two groups: what is given of them, and how many passes give it where one holds one group or two. A caller
/// cites a clause.
pub fn worked()
    ensures results { results_of four_rows ≡ (1, 2, 2) ∷ (0, 2, 4) ∷ [] }
    ensures two { length (passes_of 1 four_rows) ≡ 2 }
    ensures one { length (passes_of 2 four_rows) ≡ 1 }
{}
