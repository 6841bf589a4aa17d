//! Why a call on owners is refused.
ghost use Rattle.std.specs.Prelude.{◌≡◌};
ghost use Rattle.owner_core.specs.declared.errors.OwnerError.TheVariants.{Memory};

use std::alloc::{AllocError, AllocFailed};
use thiserror::Error;

/// Why a call on owners is refused. After it the owners are as they were.
#[derive(Clone, Copy, Debug, PartialEq, Eq, Error)]
pub enum OwnerError {
    /// The owner's release has begun, so that it remembers and forgets nothing more.
    #[error("the owner's release has begun")]
    Releasing,
    /// The owner has no item of this kind and key.
    #[error("the owner has no such item")]
    NotOwned,
    /// As many owners live as can: `MOST_OWNERS`.
    #[error("too many owners")]
    TooMany,
    /// Memory was refused.
    #[error("no memory")]
    Memory,
}

impl From<AllocError> for OwnerError {
    ghost from_gives = { λ _ e. e ≡ Memory };

    fn from(_error: AllocError) -> OwnerError {
        OwnerError::Memory
    }
}

impl<T: Drop> From<AllocFailed<T>> for OwnerError {
    ghost from_gives = { λ _ e. e ≡ Memory };

    fn from(_error: AllocFailed<T>) -> OwnerError {
        OwnerError::Memory
    }
}
