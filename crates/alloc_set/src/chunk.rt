//! What an AllocSet keeps of its chunks.
use addr_space::Addr;

/// What stands at an address where a chunk was cut.
#[derive(Clone, Copy)]
pub enum Chunk {
    /// A live chunk of a class.
    Live { class: u8, size: u32 },
    /// A free chunk of a class, and the next free one of that class.
    Free { class: u8, next: Option<Addr> },
    /// A live chunk that has its block for itself, and the bytes that it may have there.
    Own { size: u32, room: u32 },
}
