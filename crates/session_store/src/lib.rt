//! What one session of a backend holds: its memory contexts, its resource owners and its levels of transaction.
#![tactic(auto)]

mod chunks;
mod contexts;
mod ends;
mod hooks;
mod levels;
mod owners;
mod plans;
mod snapshots;
mod store;

pub use hooks::RegisterError;
pub use levels::deepest;
pub use store::Store;
