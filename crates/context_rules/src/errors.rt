//! Why a call on a tree of contexts is refused.
use chunk_header::CtxError;
use thiserror::Error;

/// Why a call on a tree of contexts is refused. Where several causes stand, the first of this list is told.
#[derive(Clone, Copy, Debug, PartialEq, Eq, Error)]
pub enum TreeError {
    /// No live chunk has the name.
    #[error("no such chunk")]
    NoName,
    /// The name is that of a live chunk, or of a live context, or is kept for the contexts of sessions.
    #[error("name is taken")]
    Taken,
    /// The context is one of the session's own.
    #[error("context is protected")]
    Protected,
    /// The current context would go.
    #[error("context is in use")]
    InUse,
    /// The new parent is the context itself, or is below it.
    #[error("cycle of contexts")]
    Cycle,
    /// The place is outside the bytes of the chunk.
    #[error("outside the chunk's bytes")]
    Range,
    /// As many contexts live as can: `MOST_CONTEXTS`.
    #[error("too many contexts")]
    TooMany,
    /// The context's allocator refuses, for another cause than want of memory.
    #[error("refused by the allocator")]
    Ctx(CtxError),
    /// Memory was refused. It may come in place of any other cause in a call that takes memory.
    #[error("no memory")]
    Memory,
}
