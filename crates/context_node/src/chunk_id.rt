//! Where a chunk is kept.
use forest::NodeId;
use pgs_step::CtxId;

/// A chunk with a name: its context, and where that one keeps it.
#[derive(Clone, Copy, Debug, PartialEq, Eq)]
pub struct ChunkId {
    pub context: CtxId,
    pub entry: NodeId,
}
