use pgs_step::Phase;

/// When the items of a kind are released.
#[derive(Clone, Copy, Debug, PartialEq, Eq)]
pub struct KindRow {
    /// Before or after the locks.
    pub phase: Phase,
    /// The place in this phase: a lower number goes first.
    pub priority: u32,
}

impl Default for KindRow {
    fn default() -> KindRow {
        KindRow {
            phase: Phase::BeforeLocks,
            priority: 0,
        }
    }
}
