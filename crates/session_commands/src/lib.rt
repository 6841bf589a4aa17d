//! What commands do within a transaction of one session, but for those on portals; and what all commands share: the fallible calls of a run,
//! what it lends to a session, the errors, and the steps of items. A fallible call answers `Injected` where it is the one that is to fail, and
//! `NoMemory` where memory is refused, each with its number. What a session gives back, of session_ends, is passed on to the crates above.
//!
//! Each group of commands has a module, with a function that does what any command of the group asks for, and one for each command.
#![tactic(auto)]

mod calls;
mod chunks;
mod contexts;
mod errors;
mod extensions;
mod items;
mod locks;
mod plans;
mod shared;
mod snapshots;
mod steps;
mod telling;

pub use calls::Calls;
pub use chunks::work_on_chunks;
pub use contexts::work_on_contexts;
pub use errors::call_error;
pub use items::work_on_items;
pub use locks::{hold_lock, work_on_locks};
pub use plans::work_on_plans;
pub use session_ends::{
    abort, clean_up, close, commit_top, end_portal, release_item, roll_back, subcommit,
};
pub use shared::Shared;
pub use snapshots::work_on_snapshots;
pub use steps::{hold_pin, hold_reference};
pub use telling::tell;
