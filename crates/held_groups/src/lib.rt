//! The groups that a pass of a hash aggregate holds, each in a chunk of a Bump context: the hash table of PostgreSQL's
//! nodeAgg.c.
#![tactic(auto)]

mod held;
mod places;
pub mod told_rows;
mod totals;

pub use held::{HeldGroups, MOST_ROWS};
