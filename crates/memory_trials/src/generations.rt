//! What Generation contexts hold, and what they refuse.
ghost use Rattle.std.specs.Prelude.{OnOk};
ghost use Rattle.addr_space.specs.Footprint.{Agrees};
ghost use Rattle.generation_ctx.specs.State.{footprint};

use addr_space::Space;
use chunk_header::{CtxError, Sizes};
use generation_ctx::GenerationCtx;
use std::test::Fail;

const GREAT: Sizes = Sizes {
    init: 8192,
    max: 8_388_608,
};

// What is done with a chunk of so many bytes once it is taken.
#[derive(Clone, Copy)]
enum Step {
    Keep(u64),
    Free(u64),
    Resize(u64, u64),
    FreeTwo(u64),
}

use Step::{Free, FreeTwo, Keep, Resize};

// Takes two chunks, and frees the older one and then the other.
fn free_two(context: &mut GenerationCtx, space: &mut Space, size: u64) -> Result<(), CtxError>
    requires { Agrees (footprint context.old) space.old }
    ensures { OnOk result (Agrees (footprint context.new) space.new) }
{
    let older = match context.alloc(space, size) {
        Ok(at) => at,
        Err(error) => return Err(error),
    };
    let newer = match context.alloc(space, size) {
        Ok(at) => at,
        Err(error) => return Err(error),
    };
    match context.free(space, older) {
        Ok(()) => {}
        Err(error) => return Err(error),
    }
    context.free(space, newer)
}

fn perform(context: &mut GenerationCtx, space: &mut Space, step: Step) -> Result<(), CtxError>
    requires { Agrees (footprint context.old) space.old }
    ensures { OnOk result (Agrees (footprint context.new) space.new) }
{
    match step {
        Keep(size) => match context.alloc(space, size) {
            Ok(_) => Ok(()),
            Err(error) => Err(error),
        },
        Free(size) => match context.alloc(space, size) {
            Ok(at) => context.free(space, at),
            Err(error) => Err(error),
        },
        Resize(size, other) => match context.alloc(space, size) {
            Ok(at) => match context.realloc(space, at, 0, other) {
                Ok(_) => Ok(()),
                Err(error) => Err(error),
            },
            Err(error) => Err(error),
        },
        FreeTwo(size) => free_two(context, space, size),
    }
}

fn perform_all(
    context: &mut GenerationCtx,
    space: &mut Space,
    steps: &[Step],
) -> Result<(), CtxError>
    requires { Agrees (footprint context.old) space.old }
    ensures { OnOk result (Agrees (footprint context.new) space.new) }
{
    for step in steps {
        match perform(context, space, *step) {
            Ok(()) => {}
            Err(error) => return Err(error),
        }
    }
    Ok(())
}

// What a context holds: the bytes of its blocks, their number, their rooms and the freed chunks.
type Held = (u64, u64, u64, u64);

// What a context holds after these steps.
fn held_after(rt: &HostRuntime, steps: &[Step]) -> Result<Held, Fail> {
    let mut space = Space::new(rt.alloc(), 1, 20_000_000)?;
    let mut context = GenerationCtx::create(rt.alloc(), &mut space, 0, 7, GREAT)?;
    perform_all(&mut context, &mut space, steps)?;
    let stats = context.stats();
    context.reset(&mut space);
    context.discard(&mut space);
    Ok((stats.total, stats.blocks, stats.free, stats.chunks))
}

// Why a context in a space of 10,000 bytes refuses a step.
fn refusal(rt: &HostRuntime, step: Step) -> Result<Option<CtxError>, Fail> {
    let mut space = Space::new(rt.alloc(), 1, 10_000)?;
    let mut context = GenerationCtx::create(rt.alloc(), &mut space, 0, 7, GREAT)?;
    Ok(perform(&mut context, &mut space, step).err())
}

// What a context holds with the steps of the first row that says otherwise, and what the row says.
fn other_row(rt: &HostRuntime, rows: &[(&[Step], Held)]) -> Result<Option<(Held, Held)>, Fail> {
    for (steps, wanted) in rows {
        let held = held_after(rt, steps)?;
        if held != *wanted {
            return Ok(Some((held, *wanted)));
        }
    }
    Ok(None)
}

#[test]
fn what_a_context_holds(rt: HostRuntime) -> Result<(), Fail> {
    let rows: [(&[Step], Held); 14] = [
        (&[Keep(100), Free(100)], (8192, 1, 7728, 1)),
        (&[FreeTwo(100)], (8192, 1, 7952, 0)),
        (&[Free(100)], (8192, 1, 7952, 0)),
        (&[Keep(0), Keep(9)], (8192, 1, 7912, 0)),
        (&[Keep(524_288)], (1_056_768, 2, 532_192, 0)),
        (&[Keep(524_289)], (532_536, 2, 7952, 0)),
        (&[Free(524_289)], (8192, 1, 7952, 0)),
        // An empty block that stops being current is the spare, and is current again.
        (
            &[Keep(7000), Free(7000), Keep(20000), Keep(8000), Keep(8000)],
            (49152, 3, 5800, 0),
        ),
        // A second one goes back.
        (
            &[Keep(7000), Free(7000), Free(20000), Keep(40000)],
            (81920, 3, 34584, 0),
        ),
        // The keeper is current again.
        (&[Free(7000), Keep(9000), Keep(7600)], (24576, 2, 7680, 0)),
        (&[Resize(100, 104)], (8192, 1, 7840, 0)),
        (&[Resize(100, 200)], (8192, 1, 7632, 1)),
        (&[Resize(524_289, 600_000)], (608_240, 2, 7952, 0)),
        (&[Resize(524_289, 10)], (532_536, 2, 7952, 0)),
    ];
    assert_eq!(rt; other_row(&rt, &rows)?, None);
    Ok(())
}
