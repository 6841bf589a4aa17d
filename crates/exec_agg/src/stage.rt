/// What may be called next.
#[derive(Clone, Copy, PartialEq, Eq, Debug)]
pub enum Stage {
    /// Rows are put.
    Putting,
    /// All rows were put, and groups are given.
    Giving,
    /// A call was refused: only `close` is left.
    Refused,
}
