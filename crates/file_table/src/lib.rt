//! The files that a session has open, of which only some have a descriptor of the operating system.
#![tactic(auto)]

mod descriptors;
mod files;
mod opened;
mod opening_order;

pub use files::{FileError, FileTable, MAX_FILES};
