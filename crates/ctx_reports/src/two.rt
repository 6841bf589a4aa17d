//! Two contexts of different kinds in one account.
ghost use Rattle.std.specs.Prelude.{◌≡◌, ◌<◌, [], IfOk, OnOk};
ghost use Rattle.addr_space.specs.Space.{accounts, raised};
ghost use Rattle.any_ctx.specs.Kinds.{created};
ghost use Rattle.any_ctx.specs.Contexts.{footprint, ledger};
ghost use Rattle.ctx_reports.specs.Alone.{AreBoth};

use addr_space::Space;
use any_ctx::{AnyCtx, CtxKind, SetBoxes};
use chunk_header::CtxError;
use std::alloc::Global;

/// A new default context and a new Generation, in the first account of a space without regions: the calls on one beside
/// the other begin with them.
pub fn start(alloc: Global, space: &mut Space) -> Result<(AnyCtx, AnyCtx), CtxError>
    requires regions { space.old.regions ≡ [] }
    requires account { 0 < accounts space.old }
    ensures both { IfOk result (λ made. AreBoth made.0 made.1 space.new) }
    ensures account { IfOk result (λ made. (footprint made.0).account ≡ 0) }
    ensures first { IfOk result (λ made. ledger made.0 ≡ created CtxKind.Default) }
    ensures second { IfOk result (λ made. ledger made.1 ≡ created CtxKind.Generation) }
    ensures limit { OnOk result (space.new.limit ≡ space.old.limit) }
    ensures asked { OnOk result (space.new.taken ≡ raised (raised space.old.taken 0 8192) 0 8192) }
{
    let mut boxes = SetBoxes::new(alloc);
    let first = AnyCtx::create(alloc, &mut boxes, space, 0, 7, CtxKind::Default)?;
    let second = AnyCtx::create(alloc, &mut boxes, space, 0, 8, CtxKind::Generation)?;
    let _ = first.stats();
    let _ = second.stats();
    Ok((first, second))
}
