//! Plays whole sessions, from their start to their exit, in a space and with hooks of their own. Worked examples play blocks and savepoints
//! with what they hold, plans, portals and active snapshots, and what sessions tell of what they hold.
#![tactic(auto)]

#[cfg(test)]
mod block_tests;
#[cfg(test)]
mod plan_tests;
mod playing;
#[cfg(test)]
mod portal_tests;
#[cfg(test)]
mod saying;
#[cfg(test)]
mod telling_tests;

pub use playing::{Played, outcome, outcome_over};
