//! A hash aggregate node, which holds a limited number of groups at once and spills the rows of the others: PostgreSQL's
//! hashed nodeAgg.c.
#![tactic(auto)]

mod node;
mod over;
mod stage;

pub use node::AggNode;
pub use stage::Stage;
