//! A memory context of any kind, and what the headers in a space tell of a chunk.
#![tactic(auto)]

mod any;
mod marked;

pub use alloc_set::SetBoxes;
pub use any::{AnyCtx, CtxKind};
pub use marked::{chunk_space, owner_of};
