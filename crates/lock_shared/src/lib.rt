//! What all sessions hold of heavyweight locks, and which modes conflict.
#![tactic(auto)]

mod holders;
mod mode_conflicts;
mod shared_locks;

pub use mode_conflicts::conflicts;
pub use shared_locks::{Holding, SharedLocks};
