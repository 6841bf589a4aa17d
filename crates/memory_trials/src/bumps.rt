//! What Bump contexts hold, and what they refuse.
ghost use Rattle.std.specs.Prelude.{OnOk};
ghost use Rattle.addr_space.specs.Footprint.{Agrees};
ghost use Rattle.bump_ctx.specs.State.{footprint};

use addr_space::Space;
use bump_ctx::BumpCtx;
use chunk_header::{CtxError, Sizes};
use std::test::Fail;

const GREAT: Sizes = Sizes {
    init: 8192,
    max: 8_388_608,
};

fn alloc_all(bump: &mut BumpCtx, space: &mut Space, requests: &[u64]) -> Result<(), CtxError>
    requires { Agrees (footprint bump.old) space.old }
    ensures { OnOk result (Agrees (footprint bump.new) space.new) }
{
    for size in requests {
        match bump.alloc(space, *size) {
            Ok(_) => {}
            Err(error) => return Err(error),
        }
    }
    Ok(())
}

// What a context with these requests holds: the bytes of its blocks, their number and their rooms.
fn held_after(rt: &HostRuntime, requests: &[u64]) -> Result<(u64, u64, u64), Fail> {
    let mut space = Space::new(rt.alloc(), 1, 20_000_000)?;
    let mut bump = BumpCtx::create(rt.alloc(), &mut space, 0, 7, GREAT)?;
    alloc_all(&mut bump, &mut space, requests)?;
    let stats = bump.stats();
    bump.discard(&mut space);
    Ok((stats.total, stats.blocks, stats.free))
}

#[test]
fn what_a_context_holds(rt: HostRuntime) -> Result<(), Fail> {
    let rows: [(&[u64], (u64, u64, u64)); 9] = [
        (&[], (8192, 1, 7952)),
        (&[100], (8192, 1, 7848)),
        (&[0, 1, 9], (8192, 1, 7920)),
        (&[7952], (8192, 1, 0)),
        (&[7953], (16384, 2, 8144)),
        (&[100, 8000, 9000], (32768, 3, 15344)),
        (&[524_288], (1_056_768, 2, 532_200)),
        (&[524_289, 100], (532_528, 2, 7848)),
        (&[20000, 20000, 50000], (139_264, 4, 48904)),
    ];
    for (requests, held) in &rows {
        assert_eq!(rt; held_after(&rt, requests)?, *held, "{requests:?}");
    }
    Ok(())
}

#[test]
fn refusals_and_a_reset(rt: HostRuntime) -> Result<(), Fail> {
    let mut space = Space::new(rt.alloc(), 1, 10000)?;
    let mut bump = BumpCtx::create(rt.alloc(), &mut space, 0, 7, GREAT)?;
    let at = bump.alloc(&mut space, 7000)?;
    let refused = [
        bump.free(&mut space, at).err(),
        bump.realloc(&mut space, at, 0, 1_073_741_824).err(),
    ];
    bump.reset(&mut space);
    let after = (bump.stats().free, bump.alloc(&mut space, 8000).err());
    assert_eq!(rt;
        (refused, after),
        (
            [Some(CtxError::Unsupported), Some(CtxError::TooBig)],
            (7952, Some(CtxError::NoSpace))
        )
    );
    Ok(())
}
