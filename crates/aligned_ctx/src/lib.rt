//! Chunks at addresses that are multiples of more than 8: what such a chunk asks of its context, and how it leads back
//! to the chunk that it lies in. In PostgreSQL: alignedalloc.c, and `MemoryContextAllocAligned` of mcxt.c.
#![tactic(auto)]

ghost use Rattle.std.specs.Prelude.{◌≡◌, ℕ, ◌+◌, ◌-◌, ◌%◌, ◌^◌, ◌≤◌, map, Some, None};
ghost use Rattle.addr_space.specs.declared.Addr.{Addr};
ghost use Rattle.addr_space.specs.Space.{region_at, overwritten, Changes, IsInside};
ghost use Rattle.chunk_header.specs.Header.{header_bytes, IsMarked};
ghost use Rattle.aligned_ctx.specs.Aligned.{aligned_place, redirect, requested, rounded_up, IsAlignment, IsReached, LeadsInside};

use addr_space::{Addr, Space};
use chunk_header::{CHUNK_HEADER, Header, Kind, header_at};

/// How many bytes an aligned chunk of `size` bytes asks of its context, or 2^64 - 1 where that is more. `align` is a power
/// of two from 16 to 4,096. The bytes besides stand for PostgreSQL's `PallocAlignedExtraBytes`
/// (memutils_internal.h).
#[inline]
pub fn request(size: u64, align: u32) -> u64
    ensures { result ≡ requested size align }
{
    size.saturating_add(u64::from(align))
}

/// Writes the header of the aligned chunk that lies in the chunk at `inner`, and answers where it begins: at the least
/// multiple of `align` that is 8 bytes or more behind `inner`. A region begins at a multiple of each alignment. It is what
/// PostgreSQL's `MemoryContextAllocAligned` (mcxt.c) does with the chunk that it got.
///
/// `align` is a power of two from 16 to 4,096. It changes these 8 bytes alone.
pub fn set_redirect(space: &mut Space, inner: Addr, align: u32) -> Addr
    requires alignment { IsAlignment align }
    requires near { inner.offset ≤ 2 ^ 31 }
    requires whole { inner.offset % 8 ≡ 0 }
    requires reaches { IsInside space.old inner (rounded_up (inner.offset + 8) align - inner.offset) }
    ensures place { result ≡ aligned_place inner align }
    ensures leads { LeadsInside space.new result inner }
    ensures marked { (context : ℕ) → IsMarked space.old inner context → IsMarked space.new inner context }
    ensures changes { Changes space.old space.new inner.region (overwritten (region_at space.old inner.region) (result.offset - 8) (map Some (header_bytes (redirect align (result.offset - 8 - inner.offset))))) }
    ensures taken { space.new.taken ≡ space.old.taken }
{
    let behind = u64::from(inner.offset) + u64::from(CHUNK_HEADER);
    let align_bytes = u64::from(align);
    let offset = ((behind + (align_bytes - 1)) / align_bytes * align_bytes) as u32;
    let place = Addr {
        region: inner.region,
        offset: offset - CHUNK_HEADER,
    };
    let header = Header {
        kind: Kind::Aligned,
        own: false,
        value: align,
        dist: place.offset - inner.offset,
    };
    space.write(place, &header.bytes());
    Addr {
        region: inner.region,
        offset,
    }
}

/// Where the chunk begins in which the aligned chunk at an address lies, as PostgreSQL's `AlignedAllocFree`
/// (alignedalloc.c) finds it. `None` comes exactly where a chunk that is no aligned one begins there.
pub fn inner_of(space: &Space, at: Addr) -> Option<Addr>
    requires { (context : ℕ) × IsReached space.now at context }
    ensures aligned { (inner : Addr) → LeadsInside space.now at inner → result ≡ Some inner }
    ensures none { (context : ℕ) → IsMarked space.now at context → result ≡ None }
{
    let header = header_at(space, at);
    match header.kind {
        Kind::Aligned => Some(Addr {
            region: at.region,
            offset: at.offset - CHUNK_HEADER - header.dist,
        }),
        _ => None,
    }
}
