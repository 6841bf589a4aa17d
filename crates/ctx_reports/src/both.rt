//! Calls on one of two contexts of one account: the other one, of whatever kind, stays in agreement with the space and
//! keeps the bytes of its chunks, and the account holds what both ledgers count.
ghost use Rattle.std.specs.Prelude.{◌≡◌, ℕ, ◌≤◌, IsSome, IfOk, IfSome, OnOk, Ok};
ghost use Rattle.addr_space.specs.declared.Addr.{Addr};
ghost use Rattle.addr_space.specs.Space.{Asks, IsKnown};
ghost use Rattle.addr_space.specs.Footprint.{Keeps};
ghost use Rattle.any_ctx.specs.Ledgers.{Place, give, reset};
ghost use Rattle.any_ctx.specs.Contexts.{footprint, ledger, place_at};
ghost use Rattle.any_ctx.specs.Calls.{Takes, Resizes};
ghost use Rattle.ctx_reports.specs.Alone.{AreBoth};

use addr_space::{Addr, Space};
use any_ctx::AnyCtx;
use chunk_header::CtxError;

/// Takes a chunk of a context beside another one of its account.
pub fn alloc_beside(
    context: &mut AnyCtx,
    other: &AnyCtx,
    space: &mut Space,
    size: u64,
) -> Result<Addr, CtxError>
    requires { AreBoth context.old other.now space.old }
    ensures both { AreBoth context.new other.now space.new }
    ensures keeps { Keeps (footprint other.now) (footprint other.now) space.old space.new }
    ensures taken { IfOk result (λ at. Takes context.old context.new size at space.old space.new) }
{
    let answer = context.alloc(space, size);
    let _ = context.stats();
    answer
}

/// Frees a chunk of a context beside another one of its account.
pub fn free_beside(
    context: &mut AnyCtx,
    other: &AnyCtx,
    space: &mut Space,
    at: Addr,
) -> Result<(), CtxError>
    requires both { AreBoth context.old other.now space.old }
    requires live { IsSome ((footprint context.old).live at) }
    ensures both { AreBoth context.new other.now space.new }
    ensures keeps { Keeps (footprint other.now) (footprint other.now) space.old space.new }
    ensures given { OnOk result (IfSome (place_at context.old at) (λ place. give (ledger context.old) place ≡ Ok (ledger context.new))) }
    ensures asked { Asks (footprint context.old).account 0 space.old space.new }
{
    let answer = context.free(space, at);
    let _ = context.stats();
    answer
}

/// Gives a chunk of a context another size, beside another context of its account.
pub fn realloc_beside(
    context: &mut AnyCtx,
    other: &AnyCtx,
    space: &mut Space,
    at: Addr,
    size: u64,
) -> Result<Addr, CtxError>
    requires both { AreBoth context.old other.now space.old }
    requires live { IsSome ((footprint context.old).live at) }
    ensures both { AreBoth context.new other.now space.new }
    ensures keeps { Keeps (footprint other.now) (footprint other.now) space.old space.new }
    ensures resized { IfOk result (λ to. IfSome (place_at context.old at) (λ place. Resizes context.old context.new place size at to space.old space.new)) }
{
    let answer = context.realloc(space, at, 0, size);
    let _ = context.stats();
    answer
}

/// Resets a context beside another one of its account.
pub fn reset_beside(context: &mut AnyCtx, other: &AnyCtx, space: &mut Space)
    requires { AreBoth context.old other.now space.old }
    ensures both { AreBoth context.new other.now space.new }
    ensures keeps { Keeps (footprint other.now) (footprint other.now) space.old space.new }
    ensures ledger { ledger context.new ≡ reset (ledger context.old) }
    ensures asked { Asks (footprint context.old).account 0 space.old space.new }
{
    context.reset(space);
    let _ = context.stats();
}
