//! Forests whose nodes are found by a number, and an arena that keeps one by links.
//!
//! A node has a number, which never changes, and a slot of the arena, where it lies while it is there.
//! Contracts speak of the forest by numbers. The first child of a node is the one that was put there last.
#![tactic(auto)]

mod arena;
mod edits;
mod id;
mod links;
mod preorder;

pub use arena::LinkedForest;
pub use id::NodeId;
pub use preorder::{Preorder, Visit};
