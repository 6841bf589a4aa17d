//! Why a lock is refused.
use pgs_step::Mode;
use thiserror::Error;

/// Why a call of `LockTable` is refused.
#[derive(Clone, Copy, Debug, PartialEq, Eq, Error)]
pub enum LockError {
    /// Another session holds the object in a conflicting mode. It is the least such session, and its
    /// least such mode.
    #[error("lock is held by session {session} as {mode:?}")]
    Conflict { session: u8, mode: Mode },
    /// The owner doesn't hold the lock.
    #[error("lock is not held")]
    NotHeld,
    /// Memory was refused.
    #[error("no memory")]
    Memory,
}
