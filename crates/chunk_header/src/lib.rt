//! The headers of chunks and blocks, the sizes of blocks, and what the calls of all memory contexts answer: their
//! errors, what they hold, and how a ledger that counts it goes from one call to the next. Beside these stands what is
//! kept for the next that need it: the boxes of contexts, and the free chunks of an AllocSet by class.
#![tactic(auto)]

ghost use Rattle.std.specs.Prelude.{◌≡◌, ℕ, ◌+◌, ◌-◌, ◌*◌, ◌/◌, ◌%◌, ◌^◌, ◌<◌, ◌≤◌, ◌↔◌, ◌⊎◌, Ok, IsErr, IfOk, IfErr, IfSome, IfNone};
ghost use Rattle.addr_space.specs.declared.Addr.{Addr};
ghost use Rattle.addr_space.specs.Space.{Space};
ghost use Rattle.addr_space.specs.Footprint.{Footprint, Agrees};
ghost use Rattle.chunk_header.specs.Header.{kind_code, word_of, IsPackable, header_bytes, block_bytes, IsMarked, IsHeaded};
ghost use Rattle.chunk_header.specs.Growth.{up8, granted, grown};
ghost use Rattle.chunk_header.specs.Answers.{refusal_of};

mod free_list;
mod reading;
mod shelves;

use addr_space::SpaceError;
pub use free_list::{FreeList, MOST_KEPT};
pub use reading::{header_at, word_at};
pub use shelves::{Shelf, Shelves};
use std::alloc::AllocError;
use thiserror::Error;

/// The kinds of memory context, as a chunk's header names them: PostgreSQL's `MemoryContextMethodID`
/// (memutils_internal.h).
#[derive(Clone, Copy, PartialEq, Eq, Debug)]
pub enum Kind {
    /// Chunks of a power of two, kept by class when they are freed.
    AllocSet,
    /// Chunks of one size.
    Slab,
    /// Chunks that live about as long as their neighbours.
    Generation,
    /// Chunks without headers that are never freed.
    Bump,
    /// A chunk at an address that is a multiple of more than 8.
    Aligned,
}

impl Kind {
    // The kind that four bits stand for.
    #[inline]
    fn from_bits(bits: u8) -> Option<Kind>
        ensures some { IfSome result (λ kind. kind_code kind ≡ bits) }
        ensures none { IfNone result ((bits ≡ 0) ⊎ (5 < bits)) }
    {
        match bits {
            1 => Some(Kind::AllocSet),
            2 => Some(Kind::Slab),
            3 => Some(Kind::Generation),
            4 => Some(Kind::Bump),
            5 => Some(Kind::Aligned),
            _ => None,
        }
    }

    // The bits that stand for the kind.
    #[inline]
    fn bits(self) -> u64
        ensures { result ≡ kind_code self }
    {
        match self {
            Kind::AllocSet => 1,
            Kind::Slab => 2,
            Kind::Generation => 3,
            Kind::Bump => 4,
            Kind::Aligned => 5,
        }
    }
}

/// What stands in the 8 bytes before a chunk.
#[derive(Clone, Copy, PartialEq, Eq, Debug)]
pub struct Header {
    /// The kind of the chunk's context.
    pub kind: Kind,
    /// Whether the chunk has its block for itself.
    pub own: bool,
    /// The class or the rounded size of the chunk, below 2^30.
    pub value: u32,
    /// The bytes from the header of the block to this one: a multiple of 8.
    pub dist: u32,
}

/// The lowest four bits of a word that is no header.
#[derive(Clone, Copy, PartialEq, Eq, Debug)]
pub struct BadKind(pub u8);

/// Why a context refuses a request.
///
/// Each kind of context asks in this order: whether the size is too big, whether the kind serves such a request at
/// all, whether the account may hold more, and whether there is memory.
#[derive(Clone, Copy, PartialEq, Eq, Debug, Error)]
pub enum CtxError {
    /// The size is over `LARGEST`.
    #[error("the size is too big")]
    TooBig,
    /// The account would hold more than the space lets it.
    #[error("no space: the account would hold more than it may")]
    NoSpace,
    /// A context of one size was asked for another.
    #[error("the context has chunks of another size")]
    WrongSize,
    /// The kind of context has no such call.
    #[error("the kind of context has no such call")]
    Unsupported,
    /// There is no memory.
    #[error("no memory")]
    Memory,
}

/// What a context holds: PostgreSQL's `MemoryContextCounters` (memnodes.h).
#[derive(Clone, Copy, PartialEq, Eq, Debug)]
pub struct Stats {
    /// The bytes of all its blocks.
    pub total: u64,
    /// How many blocks it has.
    pub blocks: u64,
    /// The bytes in rooms of blocks and in free chunks.
    pub free: u64,
    /// How many free chunks it has.
    pub chunks: u64,
}

/// The greatest size of a request, in bytes: PostgreSQL's `MaxAllocSize` (memutils.h).
pub const LARGEST: u64 = 1_073_741_823;

/// The bytes of a context of its own, at the start of its first region: what PostgreSQL's struct of a context takes
/// there, in each kind as much.
pub const CONTEXT_BYTES: u32 = 200;

/// The bytes of a block's header.
pub const BLOCK_HEADER: u32 = 40;

/// The bytes of a chunk's header: PostgreSQL's `MemoryChunk` (memutils_memorychunk.h).
pub const CHUNK_HEADER: u32 = 8;

/// The bytes before the room of a context's first block: those of the context, and the block's header.
pub const KEEPER_HEADERS: u32 = CONTEXT_BYTES + BLOCK_HEADER;

/// The bytes before a chunk that has its block for itself: the block's header, and the chunk's.
pub const OWN_HEADERS: u32 = BLOCK_HEADER + CHUNK_HEADER;

/// The least size of a context's first block, in bytes.
pub const LEAST_BLOCK: u32 = 1024;

/// The greatest size that a context's blocks may double up to, in bytes: PostgreSQL's `ALLOCSET_DEFAULT_MAXSIZE`
/// (memutils.h).
pub const LARGEST_BLOCK: u32 = 8_388_608;

/// The last class of an AllocSet's chunks. The first one is 0.
pub const LAST_CLASS: u8 = 10;

/// How many classes there are.
pub const CLASSES: usize = LAST_CLASS as usize + 1;

/// The sizes of a context's blocks, in bytes: both multiples of 8.
#[derive(Clone, Copy, PartialEq, Eq, Debug)]
pub struct Sizes {
    /// The size of the first block, at least `LEAST_BLOCK`.
    pub init: u32,
    /// What the size of a block doubles up to, at least the first one's and at most `LARGEST_BLOCK`.
    pub max: u32,
}

impl From<AllocError> for CtxError {
    ghost use Rattle.chunk_header.specs.declared.CtxError.TheVariants.{Memory};

    ghost from_gives = { λ from to. to ≡ Memory };

    fn from(_error: AllocError) -> CtxError {
        CtxError::Memory
    }
}

impl From<SpaceError> for CtxError {
    ghost from_gives = { λ from to. to ≡ refusal_of from };

    fn from(error: SpaceError) -> CtxError {
        match error {
            SpaceError::NoSpace => CtxError::NoSpace,
            SpaceError::Memory => CtxError::Memory,
        }
    }
}

impl Header {
    /// The word that stands for the header.
    #[tactic(auto, unfolding(crate::specs::Header::word_of))]
    #[inline]
    pub fn pack(&self) -> u64
        requires value { self.now.value < 2 ^ 30 }
        requires dist { self.now.dist % 8 ≡ 0 }
        ensures { result ≡ word_of self.now }
    {
        self.kind.bits()
            + if self.own { 16 } else { 0 }
            + u64::from(self.value) * 32
            + u64::from(self.dist / 8) * 0x8_0000_0000
    }

    /// The bytes of the header's word, lowest first.
    #[tactic(auto, unfolding(crate::specs::Header::header_bytes))]
    #[inline]
    pub fn bytes(&self) -> [u8; 8]
        requires value { self.now.value < 2 ^ 30 }
        requires dist { self.now.dist % 8 ≡ 0 }
        ensures { result ≡ header_bytes self.now }
    {
        self.pack().to_le_bytes()
    }

    /// The header that a word stands for, or the lowest four bits where they are no kind.
    #[tactic(auto, using(crate::proofs::Words::word_of_header_in))]
    #[inline]
    pub fn unpack(word: u64) -> Result<Header, BadKind>
        ensures word { IfOk result (λ h. word_of h ≡ word) }
        ensures packable { IfOk result IsPackable }
        ensures packed { (h : Header) → IsPackable h → word ≡ word_of h → result ≡ Ok h }
        ensures no_kind { IsErr result ↔ ((word % 16 ≡ 0) ⊎ (5 < word % 16)) }
        ensures bits { IfErr result (λ bad. bad.0 ≡ word % 16) }
    {
        let Some(kind) = Kind::from_bits((word % 16) as u8) else {
            return Err(BadKind((word % 16) as u8));
        };
        let own = word / 16 % 2 == 1;
        let value = (word / 32 % 0x4000_0000) as u32;
        let dist = (word / 0x8_0000_0000 * 8) as u32;
        Ok(Header {
            kind,
            own,
            value,
            dist,
        })
    }
}

/// The first bytes of a block's header: the number of its context and its size.
#[tactic(auto, unfolding(crate::specs::Header::block_bytes))]
#[inline]
pub fn block_header(context: u32, size: u32) -> [u8; 8]
    ensures { result ≡ block_bytes context size }
{
    let number = context.to_le_bytes();
    let bytes = size.to_le_bytes();
    [
        number[0], number[1], number[2], number[3], bytes[0], bytes[1], bytes[2], bytes[3],
    ]
}

/// The law that leads from a context's marks to the bytes of the space: a chunk that its context's marks head is marked in each space that agrees with the context.
#[tactic(auto, using(crate::proofs::Marks::marked_by))]
pub fn marked()
    ensures { (f : Footprint) (s : Space) (at : Addr) → Agrees f s → IsHeaded f at → IsMarked s at f.context }
{}

/// A size rounded up to a multiple of 8.
#[tactic(auto, unfolding(crate::specs::Growth::up8))]
#[inline]
pub fn up8(n: u32) -> u32
    requires { n ≤ 2 ^ 31 }
    ensures value { result ≡ up8 n }
    ensures least { n ≤ result }
    ensures most { result < n + 8 }
    ensures whole { result % 8 ≡ 0 }
{
    (n + 7) / 8 * 8
}

/// The bytes of a chunk that is cut to measure: a multiple of 8, and 8 where none was asked for.
#[tactic(auto, unfolding(crate::specs::Growth::granted))]
#[inline]
pub fn granted(size: u32) -> u32
    requires { size < 2 ^ 30 }
    ensures value { result ≡ granted size }
    ensures some { 8 ≤ result }
    ensures least { size ≤ result }
    ensures most { (result ≡ 8) ⊎ (result < size + 8) }
    ensures whole { result % 8 ≡ 0 }
{
    up8(size.max(1))
}

/// A block's size, doubled while it is below a need.
#[tactic(auto, using(crate::proofs::Doubling::grown_stop, crate::proofs::Doubling::grown_go))]
pub fn grown(size: u32, need: u32) -> u32
    requires some { 0 < size }
    requires small { need ≤ 2 ^ 31 }
    ensures value { result ≡ grown size need }
    ensures enough { need ≤ result }
    ensures least { size ≤ result }
    ensures most { (result ≡ size) ⊎ (result < 2 * need) }
    ensures whole { size % 8 ≡ 0 → result % 8 ≡ 0 }
{
    let mut now = size;
    while now < need {
        now *= 2;
    }
    now
}
