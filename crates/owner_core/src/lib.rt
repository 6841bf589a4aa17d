//! Resource owners: what a session holds besides memory, and how it is given back at the end of a level.
//!
//! An owner remembers items, each a resource of some kind, and may have owners below it. When its level ends
//! it is released with all below it, in three phases, and is then discarded. What the items and the locks are
//! given back to is a type parameter, the tables of the session, which implement `Release`.
#![tactic(auto)]

mod discard_tree;
mod errors;
mod laws;
mod locks;
mod node;
mod owners;
mod place;
mod release_items;
mod release_tree;
mod table;

pub use errors::OwnerError;
pub use laws::whole_release;
pub use owners::{MOST_OWNERS, Owners};
pub use table::Release;
