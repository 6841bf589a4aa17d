//! What Slab contexts answer, and what they report.
ghost use Rattle.std.specs.Prelude.{◌≤◌, ◌<◌, ◌+◌, ◌≡◌, OnOk, length, Some};
ghost use Rattle.addr_space.specs.Space.{accounts};
ghost use Rattle.addr_space.specs.Footprint.{Agrees};
ghost use Rattle.slab_ctx.specs.State.{footprint};
ghost use Rattle.memory_trials.specs.Held.{AreLive};
ghost use Rattle.slab_ctx.specs.declared.slots.TheConstants.{LARGEST_CHUNK};

use addr_space::{Addr, Space};
use chunk_header::{CtxError, Stats};
use slab_ctx::SlabCtx;
use std::test::Fail;

// What a context with one chunk of a size has.
fn with_one(rt: &HostRuntime, size: u32) -> Result<Stats, Fail>
    requires least { 1 ≤ size }
    requires most { size ≤ LARGEST_CHUNK }
{
    let mut space = Space::new(rt.alloc(), 1, 100_000)?;
    let mut slab = SlabCtx::create(rt.alloc(), &mut space, 0, 7, size)?;
    slab.alloc(&mut space, u64::from(size))?;
    Ok(slab.stats())
}

// The numbers of a context with one block.
fn row(free: u64, chunks: u64) -> Stats {
    Stats {
        total: 8392,
        blocks: 1,
        free,
        chunks,
    }
}

#[test]
fn one_chunk(rt: HostRuntime) -> Result<(), Fail> {
    let small = with_one(&rt, 1)?;
    let middle = with_one(&rt, 64)?;
    let large = with_one(&rt, 1024)?;
    assert_eq!(rt;
        (small, middle, large),
        (row(8128, 508), row(8064, 112), row(6192, 6))
    );
    Ok(())
}

#[test]
fn a_freed_chunk_is_taken_again(rt: HostRuntime) -> Result<(), Fail> {
    let mut space = Space::new(rt.alloc(), 1, 9000)?;
    let mut slab = SlabCtx::create(rt.alloc(), &mut space, 0, 7, 64)?;
    let at = slab.alloc(&mut space, 64)?;
    let stays = slab.realloc(&mut space, at, 0, 64)?;
    slab.headed();
    slab.free(&mut space, at)?;
    let again = slab.alloc(&mut space, 64)?;
    assert_eq!(rt; (stays == at, again == at), (true, true));
    assert_eq!(rt; space.taken(0), 8392);
    Ok(())
}

// What a context says that had a chunk and was reset.
fn said_after_reset(slab: &mut SlabCtx, space: &mut Space) -> Result<Stats, CtxError>
    requires { Agrees (footprint slab.old) space.old }
    ensures agrees { OnOk result (Agrees (footprint slab.new) space.new) }
    ensures accounts { accounts space.new ≡ accounts space.old }
{
    slab.alloc(space, 64)?;
    slab.reset(space);
    Ok(slab.stats())
}

#[test]
fn reset_and_discarded(rt: HostRuntime) -> Result<(), Fail> {
    let mut space = Space::new(rt.alloc(), 1, 9000)?;
    let mut slab = SlabCtx::create(rt.alloc(), &mut space, 0, 7, 64)?;
    let stats = said_after_reset(&mut slab, &mut space)?;
    slab.discard(&mut space);
    let kept = (stats.total, stats.blocks, stats.chunks);
    assert_eq!(rt;
        (kept, space.held(0), space.taken(0)),
        ((200, 0, 0), 0, 8392)
    );
    Ok(())
}

// Why a context in a space of so many bytes refuses a request.
fn refusal(rt: &HostRuntime, limit: u64, size: u64) -> Result<Option<CtxError>, Fail> {
    let mut space = Space::new(rt.alloc(), 1, limit)?;
    let mut slab = SlabCtx::create(rt.alloc(), &mut space, 0, 7, 64)?;
    Ok(slab.alloc(&mut space, size).err())
}
