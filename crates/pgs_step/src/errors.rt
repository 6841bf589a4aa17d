//! The errors that a script line can meet.
use crate::lock_modes::Mode;

/// Why a command failed, as an ERROR event shows it: PostgreSQL's `SQLSTATE` and a text.
#[derive(Clone, Copy, Debug, PartialEq, Eq, thiserror::Error)]
pub enum Error {
    /// 42601: the line isn't a command.
    #[error("the line is no command")]
    SyntaxError,
    /// 08003: the line names a session that the run doesn't have.
    #[error("no such session")]
    NoSuchSession,
    /// 25P02: the transaction is aborted, and only its end is taken.
    #[error("the transaction is aborted")]
    TransactionAborted,
    /// 25P01: a command on savepoints without a transaction.
    #[error("no transaction")]
    NoTransactionBlock,
    /// 3B001: no level of the transaction has that name.
    #[error("no such savepoint")]
    NoSuchSavepoint,
    /// 42704: the name or number stands for nothing that is there.
    #[error("no such name")]
    NoSuchName,
    /// 42710: the name or number stands for something already.
    #[error("the name is taken")]
    NameTaken,
    /// 42501: the context belongs to the program, a transaction, a portal or a plan.
    #[error("the context is protected")]
    ContextProtected,
    /// 55006: the current context would go.
    #[error("the context is in use")]
    ContextInUse,
    /// 42P17: a context would be its own ancestor.
    #[error("a context would be its own ancestor")]
    ContextCycle,
    /// 54000: more than 1,073,741,823 bytes, PostgreSQL's `MaxAllocSize`.
    #[error("the size is too big")]
    TooBig,
    /// 53200: the space hasn't that many bytes left.
    #[error("no space")]
    OutOfSpace,
    /// 53200: the fallible call of this number, counted over the whole run from 1, is the one that was to fail.
    #[error("call {0} was to fail")]
    Injected(u64),
    /// 22023: a slab context gives chunks of one size alone.
    #[error("the context has chunks of another size")]
    WrongChunkSize,
    /// 0A000: a context of that kind doesn't do this.
    #[error("the kind of context has no such call")]
    Unsupported,
    /// 22003: bytes that the chunk doesn't have, or that were never written.
    #[error("outside the chunk's bytes")]
    OutsideChunk,
    /// 22023: there is no buffer of that number.
    #[error("no such buffer")]
    NoSuchBuffer,
    /// 55000: the owner of the deepest level doesn't hold this.
    #[error("not held")]
    NotHeld,
    /// 55P03: another session holds the lock in a mode that conflicts.
    #[error("lock is held by session {session} as {mode:?}")]
    LockHeld { session: u8, mode: Mode },
    /// 53400: an extension kind holds as many keys as it may.
    #[error("the kind is full")]
    KindLimit,
    /// 54000: there are as many of these as there may be.
    #[error("too many")]
    LimitReached,
    /// 34000: no portal has that name.
    #[error("no such portal")]
    NoSuchPortal,
    /// 42P03: a portal has that name.
    #[error("the portal is there")]
    PortalTaken,
    /// 55000: the portal failed in an earlier command.
    #[error("the portal failed")]
    PortalFailed,
    /// 22012: the scan met the row that it can't read.
    #[error("row {0} is bad")]
    BadRow(u32),
    /// P0001: the command `raise`.
    #[error("raised")]
    Raised,
    /// 53200: memory was refused at the fallible call of this number, counted over the whole run from 1.
    #[error("no memory at call {0}")]
    NoMemory(u64),
}
