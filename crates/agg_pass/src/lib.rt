//! One pass of a hash aggregate over rows: the first groups are held, and the rows of the others are spilled to a file.
#![tactic(auto)]

mod pass;
mod spilling;

pub use pass::AggPass;
