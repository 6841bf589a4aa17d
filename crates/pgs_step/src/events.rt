//! What a session does, one event for each line of a transcript.
use crate::chunk_bytes::ChunkBytes;
use crate::counters::{Depth, MemoryCounters, SessionCounts};
use crate::errors::Error;
use crate::ids::Item;
use crate::lock_modes::Mode;
use crate::names::Name;

/// One step of a session, as its line of the transcript shows it.
///
/// Contexts and owners stand as their numbers, levels count from 1.
#[derive(Clone, Copy, Debug, PartialEq, Eq)]
pub enum What {
    /// A transaction (level 1) or a subtransaction begins.
    BeginLevel(u32),
    /// A level begins to commit.
    CommitLevel(u32),
    /// A level begins to abort.
    AbortLevel(u32),
    /// An aborted level is cleaned up.
    CleanupLevel(u32),
    /// A context was made.
    Create {
        context: u64,
        name: Name,
        parent: u64,
    },
    /// A context's memory was reset.
    Reset(u64),
    /// A context is deleted.
    Delete(u64),
    /// A context got another parent.
    Move {
        context: u64,
        parent: u64,
    },
    /// The hook of this word waits for the end of what the context holds.
    Hook {
        word: u64,
        context: u64,
    },
    /// The hook of this word ran.
    Callback {
        word: u64,
        context: u64,
    },
    /// An owner without a parent was made.
    Owner(u64),
    /// An owner with a parent was made.
    OwnerIn {
        owner: u64,
        parent: u64,
    },
    /// An owner got another parent.
    MoveOwner {
        owner: u64,
        parent: u64,
    },
    /// An owner was discarded.
    OwnerGone(u64),
    /// An owner remembers an item.
    Acquire {
        item: Item,
        owner: u64,
    },
    /// An owner's item was forgotten or released.
    Release {
        item: Item,
        owner: u64,
    },
    /// The item was still remembered at commit: it stands before its release.
    NotClosed {
        item: Item,
        owner: u64,
    },
    /// An owner holds a lock once more.
    AcquireLock {
        object: u32,
        mode: Mode,
        owner: u64,
    },
    /// An owner holds a lock `count` times fewer.
    ReleaseLock {
        object: u32,
        mode: Mode,
        count: u64,
        owner: u64,
    },
    /// The lock counts of an owner went to its parent.
    PassLock {
        object: u32,
        mode: Mode,
        count: u64,
        from: u64,
        to: u64,
    },
    /// A file has an operating system's descriptor from now on.
    DescriptorOpened(u32),
    /// A file has none any more.
    DescriptorClosed(u32),
    /// A snapshot was pushed on the stack of active snapshots.
    Push(u32),
    /// The newest active snapshot was popped.
    Pop(u32),
    /// A scan gave a row.
    Row {
        portal: Name,
        row: u32,
        value: u32,
    },
    /// A `fetch` has ended, which gave so many rows.
    Fetched {
        portal: Name,
        rows: u32,
    },
    /// Bytes of a chunk, from the place `at` on.
    Bytes {
        chunk: Name,
        at: u32,
        bytes: ChunkBytes,
    },
    /// How many sessions pin a buffer.
    Buffer {
        buffer: u32,
        sessions: u32,
    },
    /// What the session holds.
    Stat(SessionCounts),
    /// What a context has: PostgreSQL's `MemoryContextStatsPrint`.
    ContextStats {
        depth: Depth,
        context: u64,
        name: Name,
        counters: MemoryCounters,
    },
    /// What all contexts of a report have together.
    GrandTotal(MemoryCounters),
    /// `begin` in a transaction.
    AlreadyInTransaction,
    /// `commit` or `rollback` without a transaction.
    NotInTransaction,
    /// A command ended well.
    Ok,
    /// A command failed.
    Error(Error),
    /// The session has ended.
    Exit,
}

/// An event of one session, by the session's number.
#[derive(Clone, Copy, Debug, PartialEq, Eq)]
pub struct Event {
    pub session: u8,
    pub what: What,
}
