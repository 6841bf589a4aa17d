//! Plays small scenes on a session's tree of memory contexts, in a space of its own: contexts are made, used, moved,
//! reset and deleted by calls on the tree, and what is said of them is kept. Worked examples play small scenes, and trees of
//! tens of thousands of contexts.
#![tactic(auto)]

#[cfg(test)]
mod deep_tests;
#[cfg(test)]
mod row_tests;
mod trial;

pub use trial::{At, Trial};
