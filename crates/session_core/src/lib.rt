//! One session of a backend: it performs commands, recovers from errors and ends.
#![tactic(auto)]

mod ends;
mod perform;
mod savepoints;
mod session;
mod transactions;
mod turns;
mod works;

pub use session::{Session, StartError};
pub use session_commands::{Calls, Shared};
