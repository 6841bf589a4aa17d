//! Worked examples: what is said of small trees of contexts, and what their calls answer.
ghost use Rattle.std.specs.Prelude.{◌≡◌, [], IfOk};
ghost use Rattle.pgs_step.specs.Name.{IsName};
ghost use Rattle.reset_callbacks.specs.Hook.{AreDistinct};
ghost use Rattle.reset_callbacks.specs.ShelfState.{held};
ghost use Rattle.any_ctx.specs.Kinds.{IsSlabSize};
ghost use Rattle.context_trials.specs.Standing.{Stands, begun, contexts_of, five_hooks};

use crate::{At, Trial};
use any_ctx::CtxKind;
use chunk_header::CtxError;
use context_node::own_name;
use context_rules::TreeError;
use pgs_step::{Depth, MemoryCounters, Name, What};
use reset_callbacks::{CountedHook, Shelf};
use std::alloc::{AllocError, Global};
use std::test::Fail;

/// A shelf without hooks.
fn no_hooks(alloc: Global) -> Result<Shelf<CountedHook>, AllocError>
    ensures words { IfOk result (λ shelf. AreDistinct (held shelf)) }
    ensures out { IfOk result (λ shelf. shelf.out ≡ 0) }
{
    Shelf::new(alloc, Vec::new(alloc))
}

/// A session in a transaction, without hooks, with a list that keeps so many events.
pub(crate) fn transaction(alloc: Global, room: u32) -> Result<Trial, TreeError>
    ensures stands { IfOk result Stands }
    ensures contexts { IfOk result (λ trial. contexts_of trial ≡ begun) }
    ensures next { IfOk result (λ trial. trial.tree.next ≡ 7) }
{
    let Ok(shelf) = no_hooks(alloc) else {
        return Err(TreeError::Memory);
    };
    Trial::new(alloc, shelf, room)
}

fn counters(total: u64, blocks: u64, free: u64, chunks: u64) -> MemoryCounters {
    MemoryCounters {
        total,
        blocks,
        free,
        chunks,
    }
}

/// The line of a report on a context.
fn line(levels: u32, context: u64, name: &[u8], counters: MemoryCounters) -> What
    requires { IsName name.now }
{
    What::ContextStats {
        depth: Depth::new(levels),
        context,
        name: own_name(name),
        counters,
    }
}

/// The line of one of the contexts of 8,192 bytes, of which nothing was used.
fn unused(context: u64, name: &[u8]) -> What
    requires { IsName name.now }
{
    line(1, context, name, counters(8192, 1, 7952, 0))
}

/// What the last report on a context said.
fn last_said(events: &[What], of: u64) -> Option<MemoryCounters> {
    let mut last = None;
    for event in events {
        if let What::ContextStats {
            context,
            counters,
            ..
        } = *event
        {
            if context == of {
                last = Some(counters);
            }
        }
    }
    last
}

/// What a report says of a context.
fn reported(trial: &mut Trial, context: u64) -> Option<MemoryCounters>
    requires stands { Stands trial.old }
    ensures stands { Stands trial.new }
    ensures contexts { contexts_of trial.new ≡ contexts_of trial.old }
{
    trial.report();
    last_said(trial.events(), context)
}

/// Makes a context of this kind, and takes a chunk `a` of so many bytes in it.
fn make_with_chunk(
    trial: &mut Trial,
    at: At,
    name: Name,
    kind: CtxKind,
    size: u64,
) -> Result<(), TreeError>
    requires stands { Stands trial.old }
    requires slab { IsSlabSize kind }
    ensures { Stands trial.new }
{
    trial.create(at, name, kind)?;
    trial.alloc(At::Named(name), own_name(b"a"), size)
}

/// What is reported of a context of this kind with a chunk of so many bytes.
fn with_a_chunk(
    alloc: Global,
    kind: CtxKind,
    size: u64,
) -> Result<Option<MemoryCounters>, TreeError>
    requires { IsSlabSize kind }
{
    let mut trial = transaction(alloc, 40)?;
    make_with_chunk(&mut trial, At::Top, own_name(b"w"), kind, size)?;
    Ok(reported(&mut trial, 7))
}

/// What a report says where context 7, `w`, has this room and so many free chunks, and all together has this room.
fn a_report(free: u64, chunks: u64, all: u64) -> [What; 8] {
    [
        line(0, 1, b"TopMemoryContext", counters(8192, 1, 7952, 0)),
        line(1, 7, b"w", counters(8192, 1, free, chunks)),
        unused(6, b"TopTransactionContext"),
        line(
            1,
            5,
            b"TransactionAbortContext",
            counters(32_768, 1, 32_528, 0),
        ),
        unused(4, b"TopPortalContext"),
        unused(3, b"CacheMemoryContext"),
        unused(2, b"ErrorContext"),
        What::GrandTotal(counters(81_920, 7, all, chunks)),
    ]
}

/// Reports on a context `w` with a chunk in it, and without.
fn report_twice(trial: &mut Trial, w: Name) -> Result<(), TreeError>
    requires { Stands trial.old }
{
    let a = own_name(b"a");
    trial.create(At::Top, w, CtxKind::Default)?;
    trial.alloc(At::Named(w), a, 100)?;
    trial.report();
    trial.free(&a)?;
    trial.report();
    Ok(())
}

#[test]
fn a_report_has_a_line_for_each_context(rt: HostRuntime) -> Result<(), Fail> {
    let w = own_name(b"w");
    let made = [
        What::Create {
            context: 6,
            name: own_name(b"TopTransactionContext"),
            parent: 1,
        },
        What::Create {
            context: 7,
            name: w,
            parent: 1,
        },
    ];
    let with_chunk = a_report(7816, 0, 80_104);
    let without = a_report(7952, 1, 80_240);
    let mut trial = transaction(rt.alloc(), 40)?;
    report_twice(&mut trial, w)?;
    assert_eq!(rt; trial.events().get(..2), Some(made.as_slice()));
    assert_eq!(rt; trial.events().get(2..10), Some(with_chunk.as_slice()));
    assert_eq!(rt; trial.events().get(10..), Some(without.as_slice()));
    Ok(())
}

/// A session ends that has a context `w`. Answers how many contexts are left, and what they hold.
fn end_with_one(trial: &mut Trial) -> Result<(u64, u64), TreeError>
    requires stands { Stands trial.old }
    requires contexts { contexts_of trial.old ≡ begun }
    requires next { trial.old.tree.next ≡ 7 }
{
    let w = own_name(b"w");
    trial.create(At::Top, w, CtxKind::Default)?;
    trial.roll_back()?;
    trial.exit()?;
    Ok((trial.count(), trial.held()))
}

#[test]
fn a_session_ends_with_its_topmost_context(rt: HostRuntime) -> Result<(), Fail> {
    let mut trial = transaction(rt.alloc(), 40)?;
    let left = end_with_one(&mut trial)?;
    assert_eq!(rt; left, (0, 0));
    let wanted = [
        What::Delete(6),
        What::Delete(7),
        What::Delete(5),
        What::Delete(4),
        What::Delete(3),
        What::Delete(2),
        What::Delete(1),
    ];
    assert_eq!(rt; trial.events().get(2..), Some(wanted.as_slice()));
    Ok(())
}

#[test]
fn a_block_that_is_left_is_cut_up(rt: HostRuntime) -> Result<(), Fail> {
    let said = with_a_chunk(rt.alloc(), CtxKind::Default, 8000)?;
    assert_eq!(rt; said, Some(counters(24_576, 2, 16_096, 7)));
    Ok(())
}

/// What is reported of a context with a chunk of 8,193 bytes, and once the chunk is free.
fn great_chunk(trial: &mut Trial) -> Result<[Option<MemoryCounters>; 2], TreeError>
    requires { Stands trial.old }
{
    make_with_chunk(trial, At::Top, own_name(b"w"), CtxKind::Default, 8193)?;
    let taken = reported(trial, 7);
    trial.free(&own_name(b"a"))?;
    Ok([taken, reported(trial, 7)])
}

#[test]
fn a_great_chunk_has_a_block_of_its_own(rt: HostRuntime) -> Result<(), Fail> {
    let mut trial = transaction(rt.alloc(), 40)?;
    let [taken, freed] = great_chunk(&mut trial)?;
    assert_eq!(rt; taken, Some(counters(16_440, 2, 7952, 0)));
    assert_eq!(rt; freed, Some(counters(8192, 1, 7952, 0)));
    Ok(())
}

#[test]
fn a_small_context_cuts_up_its_block(rt: HostRuntime) -> Result<(), Fail> {
    let said = with_a_chunk(rt.alloc(), CtxKind::Small, 1024)?;
    assert_eq!(rt; said, Some(counters(3072, 2, 1760, 2)));
    Ok(())
}

#[test]
fn a_small_context_makes_a_block_for_a_great_chunk(rt: HostRuntime) -> Result<(), Fail> {
    let said = with_a_chunk(rt.alloc(), CtxKind::Small, 1025)?;
    assert_eq!(rt; said, Some(counters(2104, 2, 784, 0)));
    Ok(())
}

#[test]
fn a_chunk_of_no_bytes_is_a_chunk(rt: HostRuntime) -> Result<(), Fail> {
    let mut trial = transaction(rt.alloc(), 40)?;
    trial.alloc(At::Level, own_name(b"z"), 0)?;
    assert_eq!(rt; reported(&mut trial, 6), Some(counters(8192, 1, 7936, 0)));
    Ok(())
}

#[test]
fn what_does_not_fit_is_refused(rt: HostRuntime) -> Result<(), Fail> {
    let mut trial = transaction(rt.alloc(), 40)?;
    let a = own_name(b"a");
    let over = trial.alloc(At::Level, a, 1_073_741_823);
    assert_eq!(rt; over, Err(TreeError::Ctx(CtxError::NoSpace)));
    let great = trial.alloc(At::Level, a, 1_073_741_824);
    assert_eq!(rt; great, Err(TreeError::Ctx(CtxError::TooBig)));
    assert_eq!(rt; trial.held(), 73_728);
    Ok(())
}

#[test]
fn a_slab_has_chunks_of_one_size(rt: HostRuntime) -> Result<(), Fail> {
    let mut trial = transaction(rt.alloc(), 40)?;
    let s = own_name(b"s");
    make_with_chunk(&mut trial, At::Level, s, CtxKind::Slab(64), 64)?;
    assert_eq!(rt; reported(&mut trial, 7), Some(counters(8392, 1, 8064, 112)));
    let other = trial.alloc(At::Named(s), own_name(b"b"), 65);
    assert_eq!(rt; other, Err(TreeError::Ctx(CtxError::WrongSize)));
    Ok(())
}

#[test]
fn a_bump_frees_nothing(rt: HostRuntime) -> Result<(), Fail> {
    let mut trial = transaction(rt.alloc(), 40)?;
    make_with_chunk(&mut trial, At::Level, own_name(b"s"), CtxKind::Bump, 100)?;
    assert_eq!(rt; reported(&mut trial, 7), Some(counters(8192, 1, 7848, 0)));
    let freed = trial.free(&own_name(b"a"));
    assert_eq!(rt; freed, Err(TreeError::Ctx(CtxError::Unsupported)));
    Ok(())
}

/// What is reported of a Generation with two chunks once the first is free, and once both are.
fn two_freed(trial: &mut Trial) -> Result<[Option<MemoryCounters>; 2], TreeError>
    requires { Stands trial.old }
{
    let s = own_name(b"s");
    let b = own_name(b"b");
    make_with_chunk(trial, At::Level, s, CtxKind::Generation, 100)?;
    trial.alloc(At::Named(s), b, 100)?;
    trial.free(&own_name(b"a"))?;
    let one = reported(trial, 7);
    trial.free(&b)?;
    Ok([one, reported(trial, 7)])
}

#[test]
fn a_generation_empties_its_block(rt: HostRuntime) -> Result<(), Fail> {
    let mut trial = transaction(rt.alloc(), 40)?;
    let [one, both] = two_freed(&mut trial)?;
    assert_eq!(rt; one, Some(counters(8192, 1, 7728, 1)));
    assert_eq!(rt; both, Some(counters(8192, 1, 7952, 0)));
    Ok(())
}

/// A transaction is rolled back in which a Slab was made.
fn roll_back_slab(trial: &mut Trial) -> Result<(), TreeError>
    requires stands { Stands trial.old }
    requires contexts { contexts_of trial.old ≡ begun }
    requires next { trial.old.tree.next ≡ 7 }
{
    let s = own_name(b"s");
    trial.create(At::Level, s, CtxKind::Slab(64))?;
    trial.roll_back()
}

#[test]
fn what_is_below_goes_first(rt: HostRuntime) -> Result<(), Fail> {
    let mut trial = transaction(rt.alloc(), 40)?;
    roll_back_slab(&mut trial)?;
    let wanted = [What::Delete(7), What::Delete(6)];
    assert_eq!(rt; trial.events().get(2..), Some(wanted.as_slice()));
    Ok(())
}

/// A shelf with the hooks of the words 1 to 5.
fn five_on_a_shelf(alloc: Global) -> Result<Shelf<CountedHook>, AllocError>
    ensures fresh { IfOk result (λ shelf. shelf.fresh ≡ five_hooks) }
    ensures spent { IfOk result (λ shelf. shelf.spent ≡ []) }
    ensures out { IfOk result (λ shelf. shelf.out ≡ 0) }
    ensures words { IfOk result (λ shelf. AreDistinct (held shelf)) }
{
    let hooks = vec![in alloc;
        CountedHook::new(1),
        CountedHook::new(2),
        CountedHook::new(3),
        CountedHook::new(4),
        CountedHook::new(5),
    ]?;
    Shelf::new(alloc, hooks)
}

/// Hooks wait on a context `p` and on two below it, and `p` is deleted.
fn delete_hooks(trial: &mut Trial) -> Result<(), TreeError>
    requires stands { Stands trial.old }
    requires contexts { contexts_of trial.old ≡ begun }
    requires next { trial.old.tree.next ≡ 7 }
    requires fresh { trial.old.shelf.fresh ≡ five_hooks }
    requires spent { trial.old.shelf.spent ≡ [] }
    requires out { trial.old.shelf.out ≡ 0 }
{
    let p = own_name(b"p");
    let x = own_name(b"x");
    let y = own_name(b"y");
    trial.create(At::Level, p, CtxKind::Default)?;
    trial.create(At::Named(p), x, CtxKind::Default)?;
    trial.create(At::Named(p), y, CtxKind::Default)?;
    trial.hook(At::Named(p))?;
    trial.hook(At::Named(x))?;
    trial.hook(At::Named(p))?;
    trial.hook(At::Named(y))?;
    trial.hook(At::Named(p))?;
    trial.delete_hooked(At::Named(p))
}

#[test]
fn callbacks_run_newest_first_below_before_above(rt: HostRuntime) -> Result<(), Fail> {
    let shelf = five_on_a_shelf(rt.alloc())?;
    let mut trial = Trial::new(rt.alloc(), shelf, 40)?;
    delete_hooks(&mut trial)?;
    let wanted = [
        What::Callback {
            word: 4,
            context: 9,
        },
        What::Delete(9),
        What::Callback {
            word: 2,
            context: 8,
        },
        What::Delete(8),
        What::Callback {
            word: 5,
            context: 7,
        },
        What::Callback {
            word: 3,
            context: 7,
        },
        What::Callback {
            word: 1,
            context: 7,
        },
        What::Delete(7),
    ];
    assert_eq!(rt; trial.events().get(4..), Some(wanted.as_slice()));
    assert_eq!(rt; trial.spent(), 5);
    Ok(())
}

/// A context with a child is reset twice.
fn reset_twice(trial: &mut Trial) -> Result<(), TreeError>
    requires { Stands trial.old }
{
    let p = own_name(b"p");
    trial.create(At::Level, p, CtxKind::Default)?;
    trial.create(At::Named(p), own_name(b"q"), CtxKind::Default)?;
    trial.reset(At::Named(p))?;
    trial.reset(At::Named(p))
}

#[test]
fn a_reset_of_an_unused_context_says_its_children_alone(rt: HostRuntime) -> Result<(), Fail> {
    let mut trial = transaction(rt.alloc(), 40)?;
    reset_twice(&mut trial)?;
    let wanted = [What::Delete(8)];
    assert_eq!(rt; trial.events().get(3..), Some(wanted.as_slice()));
    Ok(())
}

/// A context moves from the topmost one below that of the transaction, which is rolled back.
fn roll_back_moved(trial: &mut Trial) -> Result<(), TreeError>
    requires stands { Stands trial.old }
    requires contexts { contexts_of trial.old ≡ begun }
    requires next { trial.old.tree.next ≡ 7 }
{
    let w = own_name(b"w");
    trial.create(At::Top, w, CtxKind::Default)?;
    trial.reparent(At::Named(w), At::Level)?;
    trial.roll_back()
}

#[test]
fn a_context_that_moved_goes_with_its_new_parent(rt: HostRuntime) -> Result<(), Fail> {
    let mut trial = transaction(rt.alloc(), 40)?;
    roll_back_moved(&mut trial)?;
    let wanted = [
        What::Move {
            context: 7,
            parent: 6,
        },
        What::Delete(7),
        What::Delete(6),
    ];
    assert_eq!(rt; trial.events().get(2..), Some(wanted.as_slice()));
    Ok(())
}

/// What is shown of a chunk that was written and grew, and of one of zeros.
fn grown_and_zeroed(trial: &mut Trial) -> Result<([u8; 2], [u8; 4]), TreeError>
    requires { Stands trial.old }
    ensures { Stands trial.new }
{
    let a = own_name(b"a");
    let b = own_name(b"b");
    trial.alloc(At::Level, a, 10)?;
    trial.put(&a, 0, &[0x0a, 0xff])?;
    trial.alloc0(At::Level, b, 4)?;
    trial.realloc(&a, 100)?;
    let mut two = [7; 2];
    trial.show(&a, 0, &mut two)?;
    let mut four = [7; 4];
    trial.show(&b, 0, &mut four)?;
    Ok((two, four))
}

#[test]
fn bytes_stay_where_a_chunk_grows(rt: HostRuntime) -> Result<(), Fail> {
    let mut trial = transaction(rt.alloc(), 40)?;
    let (two, four) = grown_and_zeroed(&mut trial)?;
    assert_eq!(rt; two, [0x0a, 0xff]);
    assert_eq!(rt; four, [0; 4]);
    let outside = trial.put(&own_name(b"a"), 3, &[0]);
    assert_eq!(rt; outside, Err(TreeError::Range));
    Ok(())
}

/// What is shown of a chunk that was written, and then overwritten in the space.
fn overwritten(trial: &mut Trial) -> Result<[u8; 2], TreeError>
    requires { Stands trial.old }
{
    let a = own_name(b"a");
    trial.alloc(At::Level, a, 10)?;
    trial.put(&a, 0, &[0x41, 0x42])?;
    trial.overwrite(&a, [0x43, 0x44])?;
    let mut two = [7; 2];
    trial.show(&a, 0, &mut two)?;
    Ok(two)
}

#[test]
fn bytes_are_those_of_the_space(rt: HostRuntime) -> Result<(), Fail> {
    let mut trial = transaction(rt.alloc(), 40)?;
    let two = overwritten(&mut trial)?;
    assert_eq!(rt; two, [0x43, 0x44]);
    Ok(())
}
