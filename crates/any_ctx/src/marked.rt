//! What the headers in a space tell of a chunk.
ghost use Rattle.std.specs.Prelude.{◌≡◌, ℕ, ◌^◌, ◌<◌};
ghost use Rattle.addr_space.specs.Footprint.{Footprint, Agrees};
ghost use Rattle.chunk_header.specs.Header.{IsMarked, IsLeading, block_bytes, space_of, shared_bytes, TakesSpace, IsHeaded};

use addr_space::{Addr, Space};
use chunk_header::{BLOCK_HEADER, CHUNK_HEADER, Header, Kind, header_at, word_at};

// The first bytes of the block that a chunk's header leads to.
fn block_word(space: &Space, at: Addr, header: Header) -> [u8; 8]
    requires { (context : ℕ) × (m : IsMarked space.now at context) × (header ≡ m.header) }
    ensures { (context : ℕ) → (m : IsMarked space.now at context) → header ≡ m.header → result ≡ block_bytes context m.size }
{
    let place = Addr {
        region: at.region,
        offset: at.offset - CHUNK_HEADER - header.dist,
    };
    word_at(space, place)
}

/// The number of the context that a chunk belongs to, which was handed to the context's `create`:
/// `GetMemoryChunkContext` of PostgreSQL's mcxt.c.
///
/// The chunk's address is marked: each live chunk's is, but those of a Bump context.
pub fn owner_of(space: &Space, at: Addr) -> u32
    requires { (context : ℕ) × IsMarked space.now at context }
    ensures marked { (context : ℕ) → context < 2 ^ 32 → IsMarked space.now at context → result ≡ context }

    // A context in the space that has the chunk.
    ensures live { (f : Footprint) → f.context < 2 ^ 32 → Agrees f space.now → IsHeaded f at → result ≡ f.context }
{
    let word = block_word(space, at, header_at(space, at));
    u32::from_le_bytes([word[0], word[1], word[2], word[3]])
}

// The size of the block that a chunk's header leads to.
fn block_size(space: &Space, at: Addr, header: Header) -> u32
    requires { (context : ℕ) × (m : IsMarked space.now at context) × (header ≡ m.header) }
    ensures { (context : ℕ) → (m : IsMarked space.now at context) → header ≡ m.header → m.size < 2 ^ 32 → result ≡ m.size }
{
    let word = block_word(space, at, header);
    u32::from_le_bytes([word[4], word[5], word[6], word[7]])
}

/// The bytes that a chunk takes in its block, with its header: `GetMemoryChunkSpace` of PostgreSQL's mcxt.c.
///
/// The chunk's address is marked: each live chunk's is, but those of a Bump context.
pub fn chunk_space(space: &Space, at: Addr) -> u64
    requires { (context : ℕ) × IsMarked space.now at context }
    ensures marked { (context : ℕ) → (m : IsMarked space.now at context) → m.size < 2 ^ 32 → result ≡ space_of m.header m.size }

    // What a context in the space says of its chunk.
    ensures live { (f : Footprint) (n : ℕ) → Agrees f space.now → TakesSpace f at n → result ≡ n }
{
    let header = header_at(space, at);
    if header.own {
        u64::from(block_size(space, at, header).saturating_sub(BLOCK_HEADER))
    } else {
        u64::from(shared_bytes(header) + CHUNK_HEADER)
    }
}

// The bytes of a chunk that shares its block: an AllocSet's header has the class, the others' the bytes.
fn shared_bytes(header: Header) -> u32
    requires value { header.value < 2 ^ 30 }
    requires leading { IsLeading header }
    ensures value { result ≡ shared_bytes header.kind header.value }
    ensures most { result < 2 ^ 30 }
{
    match header.kind {
        Kind::AllocSet => 8 << header.value,
        _ => header.value,
    }
}
