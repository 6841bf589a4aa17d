//! What names a node.

/// A node of a forest: its number, and the slot where it lies.
#[derive(Clone, Copy, Debug, PartialEq, Eq)]
pub struct NodeId {
    pub number: u64,
    pub slot: u32,
}
