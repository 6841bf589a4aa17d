//! A block and a chunk, as the books name them.

/// A live chunk.
#[derive(Clone, Copy, PartialEq, Eq, Debug)]
pub struct Chunk {
    /// The bytes that were asked for.
    pub size: u32,
    /// The bytes that it may have where it is, at least its size.
    pub room: u32,
    /// Whether it has its block for itself.
    pub own: bool,
}

/// A block: a region of the context.
#[derive(Clone, Copy, PartialEq, Eq, Debug)]
pub struct Block {
    /// Its number: blocks are counted as they are taken.
    pub number: u64,
    /// The bytes of its region, at most 2^31.
    pub size: u32,
    /// The bytes at its end off which chunks are cut.
    pub room: u32,
    /// How many live chunks it has.
    pub live: u32,
    /// How many chunks were freed in it since it last had its whole room, but for those that were placed again.
    pub freed: u32,
}
