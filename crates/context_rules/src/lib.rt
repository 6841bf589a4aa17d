//! The rules of a session's memory contexts: the tree that they form, what each call makes of it and says, and why a
//! call is refused. The definitions speak of numbers, names and bytes; the tree that keeps them is another crate's.
#![tactic(auto)]

mod errors;
mod names;

pub use errors::TreeError;
pub use names::is_reserved;

/// The most contexts that live at a time.
pub const MOST_CONTEXTS: usize = 65_536;
