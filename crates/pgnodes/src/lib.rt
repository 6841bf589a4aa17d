//! A program's lines that each ask for a hash aggregate, and the rows that such a line makes.
#![tactic(auto)]

mod lines;
mod making;
mod playing;
#[cfg(test)]
mod trial;

pub use lines::{
    Aggregate, Asked, LEAST_BUDGET, LEAST_GROUPS, MOST_BUDGET, MOST_GROUPS, MOST_OBJECT, MOST_ROWS,
    read_asked,
};
pub use making::{row_at, worked};
pub use playing::{Groups, play};
