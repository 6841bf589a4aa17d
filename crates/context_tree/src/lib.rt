//! A session's memory contexts as a tree.
#![tactic(auto)]

mod laws;
mod making;
mod reporting;
mod tree;

pub use context_node::own_name;
pub use laws::keeping;
pub use tree::ContextTree;
