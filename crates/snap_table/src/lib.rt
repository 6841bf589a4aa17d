//! The snapshots of a session: the registered ones, and the stack of the active ones.
#![tactic(auto)]

mod active;
mod table;

pub use active::{Active, SnapError};
pub use table::SnapTable;
