//! What a program of one's own writes over the memory, the owners and the tree of contexts.
#![tactic(auto)]

mod one_context;
mod one_tree;
mod owners;

pub use one_context::{carried, carry};
pub use one_tree::tree_scene;
pub use owners::{Opened, open, release_phases, scene};
