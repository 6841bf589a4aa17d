//! Callers of memory contexts that name no kind. What each report says, what an account holds and what it took is
//! proved of them from the contracts of a context and from its ledger alone.
#![tactic(auto)]

ghost use Rattle.std.specs.Prelude.{◌≡◌, ℕ, ◌+◌, ◌-◌, ◌<◌, ◌≤◌, Ok, Err, None, Some, IsSome, IfOk, IfErr, IfSome, OnOk, OnErr};
ghost use Rattle.addr_space.specs.declared.Addr.{Addr};
ghost use Rattle.addr_space.specs.Space.{accounts, held, taken};
ghost use Rattle.addr_space.specs.Footprint.{Agrees, Moves, Keeps};
ghost use Rattle.addr_space.specs.Live.{PutsAt, PutsLive};
ghost use Rattle.any_ctx.specs.Ledgers.{Ledger, Place, take, give, reset, stats};
ghost use Rattle.any_ctx.specs.Kinds.{IsSlabSize, created};
ghost use Rattle.any_ctx.specs.Contexts.{footprint, ledger, place_at};
ghost use Rattle.any_ctx.specs.Calls.{Takes};
ghost use Rattle.ctx_reports.specs.Alone.{IsAlone, Served, AreBoth, total_of};
ghost use Rattle.ctx_reports.specs.Courses.{given, resized, pair, end_of, course};

mod both;
mod rows;
mod two;

use addr_space::{Addr, Space};
use any_ctx::AnyCtx;
pub use both::{alloc_beside, free_beside, realloc_beside, reset_beside};
use chunk_header::{CtxError, Stats};
pub use two::start;

/// What a context reports once a chunk was taken, and once it was freed.
#[derive(Clone, Copy, PartialEq, Eq, Debug)]
pub struct Pair {
    /// Once the chunk was taken.
    pub taken: Stats,
    /// Once it was freed, or its context refused that.
    pub freed: Stats,
}

/// What a context reports once a chunk was taken, once it got another size, and once the context was reset.
#[derive(Clone, Copy, PartialEq, Eq, Debug)]
pub struct End {
    /// Once the chunk was taken.
    pub taken: Stats,
    /// Once it got the other size, or its context refused that.
    pub resized: Stats,
    /// Once the context was reset.
    pub emptied: Stats,
}

/// What a context reports once a chunk was taken, another one was, the first was freed, and what then comes.
#[derive(Clone, Copy, PartialEq, Eq, Debug)]
pub struct Course {
    /// Once the first chunk was taken.
    pub first: Stats,
    /// Once the second was.
    pub second: Stats,
    /// Once the first was freed, or its context refused that.
    pub freed: Stats,
    /// What then comes.
    pub last: End,
}

/// Takes a chunk and reports.
fn take(context: &mut AnyCtx, space: &mut Space, size: u64) -> Result<(Addr, Stats), CtxError>
    requires alone { IsAlone context.old space.old }
    ensures alone { OnOk result (IsAlone context.new space.new) }
    ensures limit { OnOk result (space.new.limit ≡ space.old.limit) }
    ensures served { IfOk result (λ made. Served context.old context.new space.old.limit size made.0) }
    ensures fresh { IfOk result (λ made. (footprint context.old).live made.0 ≡ None) }
    ensures live { IfOk result (λ made. PutsLive (footprint context.old) (footprint context.new) made.0 (Some size)) }
    ensures report { IfOk result (λ made. made.1 ≡ stats (ledger context.new)) }
{
    let at = context.alloc(space, size)?;
    Ok((at, context.stats()))
}

/// Frees a chunk and reports; a context that frees none reports what it did before.
fn free(context: &mut AnyCtx, space: &mut Space, at: Addr) -> Result<Stats, CtxError>
    requires alone { IsAlone context.old space.old }
    requires live { IsSome ((footprint context.old).live at) }
    ensures alone { OnOk result (IsAlone context.new space.new) }
    ensures limit { OnOk result (space.new.limit ≡ space.old.limit) }
    ensures given { OnOk result ((place : Place) → place_at context.old at ≡ Some place → ledger context.new ≡ given (ledger context.old) place) }
    ensures report { IfOk result (λ report. report ≡ stats (ledger context.new)) }
{
    match context.free(space, at) {
        Ok(()) => Ok(context.stats()),
        Err(CtxError::Unsupported) => Ok(context.stats()),
        Err(error) => Err(error),
    }
}

/// Gives a chunk another size and reports; a context that refuses that reports what it did before.
fn resize(context: &mut AnyCtx, space: &mut Space, at: Addr, size: u64) -> Result<Stats, CtxError>
    requires alone { IsAlone context.old space.old }
    requires live { IsSome ((footprint context.old).live at) }
    ensures alone { OnOk result (IsAlone context.new space.new) }
    ensures resized { OnOk result ((place : Place) → place_at context.old at ≡ Some place → ledger context.new ≡ resized (ledger context.old) space.old.limit place size) }
    ensures report { IfOk result (λ report. report ≡ stats (ledger context.new)) }
{
    match context.realloc(space, at, 0, size) {
        Ok(_) => Ok(context.stats()),
        Err(CtxError::Memory) => Err(CtxError::Memory),
        Err(_) => Ok(context.stats()),
    }
}

/// Takes a chunk and frees it, and reports each time.
pub fn report_pair(context: &mut AnyCtx, space: &mut Space, size: u64) -> Result<Pair, CtxError>
    requires { IsAlone context.old space.old }
    ensures { IfOk result (λ reports. pair (ledger context.old) space.old.limit size ≡ Ok reports) }
{
    let made = take(context, space, size)?;
    let freed = free(context, space, made.0)?;
    Ok(Pair {
        taken: made.1,
        freed,
    })
}

/// Takes a chunk, gives it another size and resets the context, and reports each time.
fn report_end(
    context: &mut AnyCtx,
    space: &mut Space,
    size: u64,
    other: u64,
) -> Result<End, CtxError>
    requires { IsAlone context.old space.old }
    ensures { IfOk result (λ reports. end_of (ledger context.old) space.old.limit size other ≡ Ok reports) }
{
    let made = take(context, space, size)?;
    let resized = resize(context, space, made.0, other)?;
    context.reset(space);
    Ok(End {
        taken: made.1,
        resized,
        emptied: context.stats(),
    })
}

/// Takes two chunks, frees the first, takes a third, gives that another size and resets the context: the reports after
/// each of these calls are those of the context's ledger.
pub fn report_course(
    context: &mut AnyCtx,
    space: &mut Space,
    first: u64,
    second: u64,
    third: u64,
    other: u64,
) -> Result<Course, CtxError>
    requires { IsAlone context.old space.old }
    ensures { IfOk result (λ reports. course (ledger context.old) space.old.limit first second third other ≡ Ok reports) }
{
    let one = take(context, space, first)?;
    let two = take(context, space, second)?;
    let freed = free(context, space, one.0)?;
    let last = report_end(context, space, third, other)?;
    Ok(Course {
        first: one.1,
        second: two.1,
        freed,
        last,
    })
}
