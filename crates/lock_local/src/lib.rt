//! What one session holds of heavyweight locks: how often each of its owners holds each lock.
#![tactic(auto)]

mod counting;
mod errors;
mod local_lock;
mod lock_table;
mod places;
mod recalled;
mod tag_walks;
mod walks;

pub use errors::LockError;
pub use local_lock::OwnerCount;
pub use lock_table::LockTable;
pub use recalled::MAX_RESOWNER_LOCKS;
