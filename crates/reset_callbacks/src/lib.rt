//! The hooks that run when a memory context is reset or deleted: PostgreSQL's reset callbacks.
#![tactic(auto)]

mod counted_hook;
mod hook_shelf;
mod pending_hooks;
mod reset_hook;

pub use counted_hook::CountedHook;
pub use hook_shelf::Shelf;
pub use pending_hooks::Pending;
pub use reset_hook::ResetHook;
