//! Counted references of a session: to relations, catalog entries, tuple descriptors and the like.
#![tactic(auto)]

mod table;

pub use table::{RefError, RefTable};

#[cfg(test)]
mod tests;
