//! What a scan asks of the session, one step at a time.

/// One step of a scan. The session does what it says before it asks for the next one.
#[derive(Clone, Copy, Debug, PartialEq, Eq)]
pub enum ScanStep {
    /// Reset the scan's memory of the row before: PostgreSQL's per-tuple `ExprContext`.
    Reset,
    /// Release the pin of this buffer.
    Unpin(u32),
    /// Pin this buffer, the page of the rows that follow.
    Pin(u32),
    /// This row can't be made: the command fails.
    Bad(u32),
    /// Take the memory of the row, in the scan's memory of a row.
    Alloc,
    /// The row of this number was made, with this value.
    Row(u32, u32),
    /// There are no rows left.
    End,
}
