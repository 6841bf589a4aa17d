//! How often each key counts.
#![tactic(auto)]

mod table;

pub use table::Counts;

#[cfg(test)]
mod tests;
