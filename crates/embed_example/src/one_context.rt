//! One memory context in a space: bytes are written in a chunk and read back.
ghost use Rattle.std.specs.Prelude.{◌≡◌, ℕ, ◌<◌, length, map, Some, IfOk, OnOk};
ghost use Rattle.addr_space.specs.Space.{accounts, held, region_at, overwritten, Changes, IsInside};
ghost use Rattle.addr_space.specs.Footprint.{Agrees, Moves};
ghost use Rattle.any_ctx.specs.Contexts.{footprint};

use addr_space::{Addr, Space, echoing, framing};
use any_ctx::{AnyCtx, CtxKind, SetBoxes};
use chunk_header::CtxError;
use std::alloc::Global;
#[cfg(test)]
use std::test::Fail;

// Writes bytes at a place of the space, and reads them there.
fn echo(space: &mut Space, at: Addr, bytes: &[u8], out: &mut [u8])
    requires inside { IsInside space.old at (length bytes.now) }
    requires room { length out.old ≡ length bytes.now }
    ensures bytes { out.new ≡ bytes.now }
    ensures changes { Changes space.old space.new at.region (overwritten (region_at space.old at.region) at.offset (map Some bytes.now)) }
{
    echoing();
    space.write(at, bytes);
    space.read(at, out);
}

// Takes a chunk, writes bytes in it, reads them back and frees it.
fn written_and_read(
    context: &mut AnyCtx,
    space: &mut Space,
    bytes: &[u8],
    out: &mut [u8],
) -> Result<(), CtxError>
    requires agrees { Agrees (footprint context.old) space.old }
    requires room { length out.old ≡ length bytes.now }
    ensures bytes { OnOk result (out.new ≡ bytes.now) }
    ensures moves { Moves (footprint context.old) (footprint context.new) space.old space.new }
{
    framing();
    let at = context.alloc(space, bytes.len() as u64)?;
    echo(space, at, bytes, out);
    context.free(space, at)
}

/// Carries bytes through a chunk of a context that is made for it: they are written, and read into `out`.
///
/// The context is given up in any case, so each account of the space holds what it held.
pub fn carry(alloc: Global, space: &mut Space, bytes: &[u8], out: &mut [u8]) -> Result<(), CtxError>
    requires account { 0 < accounts space.old }
    requires room { length out.old ≡ length bytes.now }
    ensures bytes { OnOk result (out.new ≡ bytes.now) }
    ensures held { (account : ℕ) → held space.new account ≡ held space.old account }
    ensures accounts { accounts space.new ≡ accounts space.old }
{
    let mut boxes = SetBoxes::new(alloc);
    framing();
    let mut context = AnyCtx::create(alloc, &mut boxes, space, 0, 7, CtxKind::Default)?;
    let done = written_and_read(&mut context, space, bytes, out);
    context.discard(space, &mut boxes);
    done
}

/// The same in a space of its own, which is handed out and holds nothing.
pub fn carried(alloc: Global, bytes: &[u8], out: &mut [u8]) -> Result<Space, CtxError>
    requires room { length out.old ≡ length bytes.now }
    ensures bytes { OnOk result (out.new ≡ bytes.now) }
    ensures held { IfOk result (λ space. (account : ℕ) → held space account ≡ 0) }
    ensures accounts { IfOk result (λ space. accounts space ≡ 1) }
{
    let Ok(mut space) = Space::new(alloc, 1, 1_000_000) else {
        return Err(CtxError::Memory);
    };
    carry(alloc, &mut space, bytes, out)?;
    Ok(space)
}

#[test]
fn bytes_come_back(rt: HostRuntime) -> Result<(), Fail> {
    let mut out = [0; 5];
    let space = carried(rt.alloc(), b"bytes", &mut out)?;
    assert_eq!(rt; out, *b"bytes");
    assert_eq!(rt; space.held(0), 0);
    Ok(())
}
