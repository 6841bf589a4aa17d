//! The levels of a session's transaction: level 1 is the transaction itself, each deeper one a
//! subtransaction inside the level before it.
#![tactic(auto)]

mod levels;

pub use levels::{Level, LevelError, Levels, MAX_DEPTH};
