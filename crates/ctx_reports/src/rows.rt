//! What contexts of each kind report, in numbers.
ghost use Rattle.std.specs.Prelude.{◌≡◌, IfOk, Ok};
ghost use Rattle.any_ctx.specs.Kinds.{IsSlabSize, created};
ghost use Rattle.ctx_reports.specs.Courses.{pair, course};
ghost use Rattle.ctx_reports.specs.Numbers.{report, then, six};

use crate::{Course, Pair, report_course, report_pair};
use addr_space::Space;
use any_ctx::{AnyCtx, CtxKind, SetBoxes};
use chunk_header::CtxError;
use std::alloc::Global;

/// What a new context of a kind reports, alone in a space whose accounts may hold 1,000,000 bytes, once a chunk was
/// taken and once it was freed.
fn new_pair(alloc: Global, kind: CtxKind, size: u64) -> Result<Pair, CtxError>
    requires { IsSlabSize kind }
    ensures { IfOk result (λ reports. pair (created kind) 1000000 size ≡ Ok reports) }
{
    let mut space = Space::new(alloc, 1, 1_000_000)?;
    let mut context = AnyCtx::create(alloc, &mut SetBoxes::new(alloc), &mut space, 0, 7, kind)?;
    let _ = context.stats();
    report_pair(&mut context, &mut space, size)
}

/// The same of six calls: two chunks are taken, the first is freed, a third is taken and gets another size, and the
/// context is reset.
fn new_course(
    alloc: Global,
    kind: CtxKind,
    first: u64,
    second: u64,
    third: u64,
    other: u64,
) -> Result<Course, CtxError>
    requires { IsSlabSize kind }
    ensures { IfOk result (λ reports. course (created kind) 1000000 first second third other ≡ Ok reports) }
{
    let mut space = Space::new(alloc, 1, 1_000_000)?;
    let mut context = AnyCtx::create(alloc, &mut SetBoxes::new(alloc), &mut space, 0, 7, kind)?;
    let _ = context.stats();
    report_course(&mut context, &mut space, first, second, third, other)
}

/// A default context with a chunk of 100 bytes.
pub fn a_class(alloc: Global) -> Result<Pair, CtxError>
    ensures { IfOk result (λ reports. reports ≡ then (report 8192 1 7816 0) (report 8192 1 7952 1)) }
{
    new_pair(alloc, CtxKind::Default, 100)
}

/// A default context with a chunk of 8,000 bytes.
pub fn a_cut_up_block(alloc: Global) -> Result<Pair, CtxError>
    ensures { IfOk result (λ reports. reports ≡ then (report 24576 2 16096 7) (report 24576 2 24296 8)) }
{
    new_pair(alloc, CtxKind::Default, 8000)
}

/// A default context with a chunk of 8,193 bytes.
pub fn an_own_block(alloc: Global) -> Result<Pair, CtxError>
    ensures { IfOk result (λ reports. reports ≡ then (report 16440 2 7952 0) (report 8192 1 7952 0)) }
{
    new_pair(alloc, CtxKind::Default, 8193)
}

/// A small context with a chunk of 1,024 bytes.
pub fn a_small_class(alloc: Global) -> Result<Pair, CtxError>
    ensures { IfOk result (λ reports. reports ≡ then (report 3072 2 1760 2) (report 3072 2 2792 3)) }
{
    new_pair(alloc, CtxKind::Small, 1024)
}

/// A small context with a chunk of 1,025 bytes.
pub fn a_small_own_block(alloc: Global) -> Result<Pair, CtxError>
    ensures { IfOk result (λ reports. reports ≡ then (report 2104 2 784 0) (report 1024 1 784 0)) }
{
    new_pair(alloc, CtxKind::Small, 1025)
}

/// A Slab of 64 bytes with a chunk of 64 bytes.
pub fn a_slab(alloc: Global) -> Result<Pair, CtxError>
    ensures { IfOk result (λ reports. reports ≡ then (report 8392 1 8064 112) (report 8392 1 8136 113)) }
{
    new_pair(alloc, CtxKind::Slab(64), 64)
}

/// A Bump, which frees no chunk, with a chunk of 100 bytes.
pub fn a_bump(alloc: Global) -> Result<Pair, CtxError>
    ensures { IfOk result (λ reports. reports ≡ then (report 8192 1 7848 0) (report 8192 1 7848 0)) }
{
    new_pair(alloc, CtxKind::Bump, 100)
}

/// A default context in six calls.
pub fn set_course(alloc: Global) -> Result<Course, CtxError>
    ensures { IfOk result (λ reports. reports ≡ six (report 8192 1 7816 0) (report 16440 2 7816 0) (report 16440 2 7952 1) (report 32824 3 16096 7) (report 52872 4 24296 8) (report 8192 1 7952 0)) }
{
    new_course(alloc, CtxKind::Default, 100, 8193, 8000, 20_000)
}

/// A Slab of 64 bytes in six calls.
pub fn slab_course(alloc: Global) -> Result<Course, CtxError>
    ensures { IfOk result (λ reports. reports ≡ six (report 8392 1 8064 112) (report 8392 1 7992 111) (report 8392 1 8064 112) (report 8392 1 7992 111) (report 8392 1 7992 111) (report 200 0 0 0)) }
{
    new_course(alloc, CtxKind::Slab(64), 64, 64, 64, 64)
}

/// A Generation in six calls.
pub fn generation_course(alloc: Global) -> Result<Course, CtxError>
    ensures { IfOk result (λ reports. reports ≡ six (report 8192 1 7840 0) (report 8192 1 7728 0) (report 8192 1 7728 1) (report 8192 1 720 1) (report 24576 2 8056 2) (report 8192 1 7952 0)) }
{
    new_course(alloc, CtxKind::Generation, 100, 100, 7000, 9000)
}

/// A Bump, which frees no chunk and gives none another size in six calls.
pub fn bump_course(alloc: Global) -> Result<Course, CtxError>
    ensures { IfOk result (λ reports. reports ≡ six (report 8192 1 7848 0) (report 16384 2 8000 0) (report 16384 2 8000 0) (report 616424 3 8000 0) (report 616424 3 8000 0) (report 8192 1 7952 0)) }
{
    new_course(alloc, CtxKind::Bump, 100, 8000, 600_000, 10)
}
