//! Temporary files that lie in memory.
#![tactic(auto)]

mod file;
mod store;

pub use store::{TempError, TempStore};
