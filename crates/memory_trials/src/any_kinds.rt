//! Contexts of each kind, and what headers tell of their chunks.
ghost use Rattle.std.specs.Prelude.{◌≢◌};
ghost use Rattle.any_ctx.specs.Kinds.{IsSlabSize};

use addr_space::Space;
use any_ctx::{AnyCtx, CtxKind, SetBoxes, chunk_space, owner_of};
use chunk_header::{CtxError, Stats, marked};
use std::alloc::Global;
use std::test::Fail;

// Total, blocks, free and chunks.
fn stats(numbers: [u64; 4]) -> Stats {
    let [total, blocks, free, chunks] = numbers;
    Stats {
        total,
        blocks,
        free,
        chunks,
    }
}

// What a context of a kind says when it is new, after a request, and after that it was reset; and what its account
// holds once it is discarded.
fn course(alloc: Global, kind: CtxKind, size: u64) -> Result<([Stats; 3], u64), Fail>
    requires { IsSlabSize kind }
{
    let mut space = Space::new(alloc, 1, 1_000_000)?;
    let mut context = AnyCtx::create(alloc, &mut SetBoxes::new(alloc), &mut space, 0, 7, kind)?;
    let new = context.stats();
    context.alloc(&mut space, size)?;
    let taken = context.stats();
    context.reset(&mut space);
    let emptied = context.stats();
    context.discard(&mut space, &mut SetBoxes::new(alloc));
    Ok(([new, taken, emptied], space.held(0)))
}

#[test]
fn each_kind(rt: HostRuntime) -> Result<(), Fail> {
    let great = [8192, 1, 7952, 0];
    for (kind, size, new, taken) in [
        (CtxKind::Default, 100, great, [8192, 1, 7816, 0]),
        (CtxKind::Small, 1025, [1024, 1, 784, 0], [2104, 2, 784, 0]),
        (CtxKind::Error, 100, great, [8192, 1, 7816, 0]),
        (
            CtxKind::Abort,
            100,
            [32768, 1, 32528, 0],
            [32768, 1, 32392, 0],
        ),
        (CtxKind::Slab(64), 64, [200, 0, 0, 0], [8392, 1, 8064, 112]),
        (CtxKind::Generation, 100, great, [8192, 1, 7840, 0]),
        (CtxKind::Bump, 100, great, [8192, 1, 7848, 0]),
    ] {
        let want = ([stats(new), stats(taken), stats(new)], 0);
        assert_eq!(rt; course(rt.alloc(), kind, size)?, want);
    }
    Ok(())
}

// What the headers tell of a chunk: the number of its context and what it takes.
fn told(alloc: Global, kind: CtxKind, size: u64) -> Result<(u32, u64), Fail>
    requires slab { IsSlabSize kind }
    requires marked { kind ≢ CtxKind.Bump }
{
    let mut space = Space::new(alloc, 1, 1_000_000)?;
    let mut context = AnyCtx::create(alloc, &mut SetBoxes::new(alloc), &mut space, 0, 7, kind)?;
    let at = context.alloc(&mut space, size)?;
    context.headed();
    marked();
    Ok((owner_of(&space, at), chunk_space(&space, at)))
}

#[test]
fn headers_lead_to_the_context(rt: HostRuntime) -> Result<(), Fail> {
    for (kind, size, space) in [
        (CtxKind::Default, 100, 136),
        (CtxKind::Default, 9000, 9008),
        (CtxKind::Slab(64), 64, 72),
        (CtxKind::Generation, 100, 112),
        (CtxKind::Generation, 600_001, 600_016),
    ] {
        assert_eq!(rt; told(rt.alloc(), kind, size)?, (7, space));
    }
    Ok(())
}
