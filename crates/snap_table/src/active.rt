//! An entry of the stack of active snapshots, and the one refusal.
use thiserror::Error;

/// A snapshot on the stack, and the level of the subtransaction that it belongs to.
#[derive(Clone, Copy, Debug, PartialEq, Eq)]
pub struct Active {
    pub snapshot: u32,
    pub level: u32,
}

/// Why a snapshot was not given back.
#[derive(Clone, Copy, Debug, PartialEq, Eq, Error)]
pub enum SnapError {
    /// The snapshot isn't registered, or the newest entry of the stack isn't of the level.
    #[error("the snapshot is not held")]
    NotHeld,
}
