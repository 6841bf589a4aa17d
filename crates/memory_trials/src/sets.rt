//! What AllocSet contexts answer, and what they report.
ghost use Rattle.std.specs.Prelude.{◌≡◌, ◌≤◌, ◌<◌, ◌%◌, Some, OnOk, IfOk};
ghost use Rattle.addr_space.specs.declared.Addr.{Addr};
ghost use Rattle.addr_space.specs.Space.{IsKnown, Asks, accounts};
ghost use Rattle.addr_space.specs.Footprint.{Agrees, AreDisjoint};
ghost use Rattle.alloc_set.specs.State.{footprint};
ghost use Rattle.alloc_set.specs.Ledger.{created};
ghost use Rattle.chunk_header.specs.declared.TheConstants.{LEAST_BLOCK, LARGEST_BLOCK};

use addr_space::{Addr, Space};
use alloc_set::{AllocSet, SetBoxes};
use chunk_header::{CtxError, Sizes, Stats};
use std::alloc::Global;
use std::test::Fail;

const GREAT: Sizes = Sizes {
    init: 8192,
    max: 8_388_608,
};

const SMALL: Sizes = Sizes {
    init: 1024,
    max: 8192,
};

// Total, blocks, free and chunks.
fn stats(numbers: [u64; 4]) -> Stats {
    let [total, blocks, free, chunks] = numbers;
    Stats {
        total,
        blocks,
        free,
        chunks,
    }
}

// What a context says when it is new, and after each of two requests.
fn said_of_two(
    space: &mut Space,
    set: &mut AllocSet,
    sizes: [u64; 2],
) -> Result<[Stats; 3], CtxError>
    requires { Agrees (footprint set.old) space.old }
    ensures agrees { OnOk result (Agrees (footprint set.new) space.new) }
    ensures accounts { accounts space.new ≡ accounts space.old }
{
    let [first, second] = sizes;
    let new = set.stats();
    set.alloc(space, first)?;
    let one = set.stats();
    set.alloc(space, second)?;
    Ok([new, one, set.stats()])
}

#[test]
fn chunks_of_a_context(rt: HostRuntime) -> Result<(), Fail> {
    let mut space = Space::new(rt.alloc(), 1, 100_000)?;
    let mut boxes = SetBoxes::new(rt.alloc());
    let mut set = AllocSet::create(rt.alloc(), &mut boxes, &mut space, 0, 7, GREAT)?;
    let said = said_of_two(&mut space, &mut set, [100, 8000])?;
    let want = [
        stats([8192, 1, 7952, 0]),
        stats([8192, 1, 7816, 0]),
        stats([24576, 2, 15960, 6]),
    ];
    assert_eq!(rt; said, want);
    Ok(())
}

// What a context says after a request, after its chunk was freed, and after a second request and a reset; and
// what its account holds once it is discarded.
fn course(alloc: Global, sizes: Sizes, size: u64) -> Result<([Stats; 3], u64), Fail>
    requires least { LEAST_BLOCK ≤ sizes.init }
    requires order { sizes.init ≤ sizes.max }
    requires most { sizes.max ≤ LARGEST_BLOCK }
    requires whole_init { sizes.init % 8 ≡ 0 }
    requires whole_max { sizes.max % 8 ≡ 0 }
{
    let mut space = Space::new(alloc, 1, 100_000)?;
    let mut set = AllocSet::create(alloc, &mut SetBoxes::new(alloc), &mut space, 0, 7, sizes)?;
    let at = set.alloc(&mut space, size)?;
    let taken = set.stats();
    set.free(&mut space, at)?;
    let freed = set.stats();
    set.alloc(&mut space, size)?;
    set.reset(&mut space);
    let emptied = set.stats();
    set.discard(&mut space, &mut SetBoxes::new(alloc));
    Ok(([taken, freed, emptied], space.held(0)))
}

#[test]
fn freed_reset_and_discarded(rt: HostRuntime) -> Result<(), Fail> {
    let new_great = [8192, 1, 7952, 0];
    let new_small = [1024, 1, 784, 0];
    let rows = [
        (
            GREAT,
            100,
            [8192, 1, 7816, 0],
            [8192, 1, 7952, 1],
            new_great,
        ),
        (
            GREAT,
            8000,
            [24576, 2, 16096, 7],
            [24576, 2, 24296, 8],
            new_great,
        ),
        (
            GREAT,
            8193,
            [16440, 2, 7952, 0],
            [8192, 1, 7952, 0],
            new_great,
        ),
        (
            SMALL,
            1024,
            [3072, 2, 1760, 2],
            [3072, 2, 2792, 3],
            new_small,
        ),
        (SMALL, 1025, [2104, 2, 784, 0], [1024, 1, 784, 0], new_small),
    ];
    for (sizes, size, taken, freed, emptied) in rows {
        let want = ([stats(taken), stats(freed), stats(emptied)], 0);
        assert_eq!(rt; course(rt.alloc(), sizes, size)?, want, "{size}");
    }
    Ok(())
}

// Two contexts, and a chunk of the first one with these bytes.
fn written(
    alloc: Global,
    space: &mut Space,
    bytes: &[u8; 8],
) -> Result<(AllocSet, AllocSet, Addr), CtxError>
    requires { 0 < accounts space.old }
    ensures agrees { IfOk result (λ made. Agrees (footprint made.0) space.new) }
    ensures others { IfOk result (λ made. Agrees (footprint made.1) space.new) }
    ensures disjoint { IfOk result (λ made. AreDisjoint (footprint made.0) (footprint made.1)) }
    ensures live { IfOk result (λ made. (footprint made.0).live made.2 ≡ Some 8) }
    ensures known { IfOk result (λ made. IsKnown space.new made.2 8) }
{
    let other = AllocSet::create(alloc, &mut SetBoxes::new(alloc), space, 0, 8, SMALL)?;
    let mut set = AllocSet::create(alloc, &mut SetBoxes::new(alloc), space, 0, 7, SMALL)?;
    let at = set.alloc(space, 8)?;
    space.write(at, bytes);
    Ok((set, other, at))
}

#[test]
fn a_moved_chunk_keeps_its_bytes(rt: HostRuntime) -> Result<(), Fail> {
    let bytes = [3, 1, 4, 1, 5, 9, 2, 6];
    let mut space = Space::new(rt.alloc(), 1, 100_000)?;
    let (mut set, _other, at) = written(rt.alloc(), &mut space, &bytes)?;
    let to = set.realloc(&mut space, at, 8, 9)?;
    let mut read = [0; 8];
    space.read(to, &mut read);
    assert_eq!(rt; read, bytes);
    Ok(())
}
