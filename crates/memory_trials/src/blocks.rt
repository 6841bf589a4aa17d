//! The blocks of a context, and the chunks that are cut off them.
ghost use Rattle.std.specs.Prelude.{◌≡◌, ◌<◌, Some, false, IfOk};
ghost use Rattle.addr_space.specs.declared.Addr.{Addr};
ghost use Rattle.addr_space.specs.Space.{IsInside, IsKnown, accounts};
ghost use Rattle.addr_space.specs.Footprint.{Agrees};
ghost use Rattle.chunk_header.specs.declared.Kind.TheVariants.{Generation};
ghost use Rattle.ctx_blocks.specs.Layout.{block_at, chunk_at, footprint};

use addr_space::{Addr, Space};
use chunk_header::{CtxError, Header, Kind};
use ctx_blocks::{Block, Blocks};
use std::alloc::Global;
use std::test::Fail;

#[test]
fn a_chunk_is_cut(rt: HostRuntime) -> Result<(), Fail> {
    let mut space = Space::new(rt.alloc(), 1, 100_000)?;
    let mut blocks = Blocks::create(rt.alloc(), &mut space, Kind::Generation, 0, 7, 1, 1024)?;
    let number = blocks.add(&mut space, 2048)?;
    let at = blocks.cut(&mut space, number, 20, 24, false);
    let header = Header {
        kind: Kind::Generation,
        own: false,
        value: 24,
        dist: 40,
    };
    let block = Block {
        number: 2,
        size: 2048,
        room: 1976,
        live: 1,
        freed: 0,
    };
    assert_eq!(rt;
        (at.offset, blocks.header(&space, at), blocks.block(number)),
        (48, header, Some(block))
    );
    assert_eq!(rt;
        (blocks.rooms(), blocks.freed(), blocks.total(), blocks.len()),
        (2760, 0, 3072, 2)
    );
    Ok(())
}

#[test]
fn a_chunk_goes(rt: HostRuntime) -> Result<(), Fail> {
    let mut space = Space::new(rt.alloc(), 1, 100_000)?;
    let mut blocks = Blocks::create(rt.alloc(), &mut space, Kind::Bump, 0, 7, 1, 1024)?;
    let number = blocks.add(&mut space, 2048)?;
    let at = blocks.cut(&mut space, number, 20, 24, false);
    blocks.set_size(at, 8);
    let was = blocks.remove(at);
    assert_eq!(rt; (at.offset, was.live, was.room), (40, 1, 1984));
    let block = blocks.block(number).ok_or("no block")?;
    assert_eq!(rt; (block.room, block.freed, blocks.freed()), (1984, 1, 1));
    assert_eq!(rt; block.live, 0);
    blocks.refill(number);
    assert_eq!(rt;
        (blocks.rooms(), blocks.freed(), blocks.account()),
        (2792, 0, 0)
    );
    Ok(())
}

#[test]
fn blocks_go(rt: HostRuntime) -> Result<(), Fail> {
    let mut space = Space::new(rt.alloc(), 1, 100_000)?;
    let mut blocks = Blocks::create(rt.alloc(), &mut space, Kind::Slab, 0, 7, 0, 200)?;
    let number = blocks.add(&mut space, 8192)?;
    let block = blocks.block(number).ok_or("no block")?;
    assert_eq!(rt; (block.room, space.held(0)), (8152, 8392));
    blocks.give(&mut space, number);
    assert_eq!(rt; (blocks.len(), space.held(0)), (1, 200));
    blocks.reset(&mut space);
    assert_eq!(rt; (blocks.total(), blocks.rooms()), (200, 0));
    blocks.discard(&mut space);
    assert_eq!(rt; space.held(0), 0);
    Ok(())
}

#[test]
fn a_chunk_is_placed(rt: HostRuntime) -> Result<(), Fail> {
    let mut space = Space::new(rt.alloc(), 1, 100_000)?;
    let mut blocks = Blocks::create(rt.alloc(), &mut space, Kind::Slab, 0, 7, 0, 1024)?;
    let number = blocks.keeper();
    let at = blocks.cut(&mut space, number, 20, 24, false);
    let there = Addr {
        region: number,
        offset: 248,
    };
    assert_eq!(rt; at, there);
    blocks.remove(at);
    let free = blocks.block(number).ok_or("no block")?;
    assert_eq!(rt; free.size, 1024);
    assert_eq!(rt; free.room, 752);
    assert_eq!(rt; free.freed, 1);
    blocks.place(&mut space, there, 16, 24);
    let block = Block {
        number: 0,
        size: 1024,
        room: 752,
        live: 1,
        freed: 0,
    };
    assert_eq!(rt; blocks.block(number), Some(block));
    Ok(())
}

// A new context with a live chunk of these bytes.
fn written(alloc: Global, space: &mut Space, bytes: &[u8; 5]) -> Result<(Blocks, Addr), CtxError>
    requires { 0 < accounts space.old }
    ensures kind { IfOk result (λ made. made.0.kind ≡ Generation) }
    ensures agrees { IfOk result (λ made. Agrees (footprint made.0) space.new) }
    ensures block { IfOk result (λ made. block_at made.0 made.1.region ≡ Some (record { number = 1; size = 1024; room = 768; live = 1; freed = 0 })) }
    ensures chunk { IfOk result (λ made. chunk_at made.0 made.1 ≡ Some (record { size = 5; room = 8; own = false })) }
    ensures known { IfOk result (λ made. IsKnown space.new made.1 5) }
{
    let mut blocks = Blocks::create(alloc, space, Kind::Generation, 0, 7, 1, 1024)?;
    let number = blocks.keeper();
    let at = blocks.cut(space, number, 5, 8, false);
    space.write(at, bytes);
    Ok((blocks, at))
}

// Cuts a second chunk off the block of a chunk of five bytes, and carries them to it.
fn carried(space: &mut Space, blocks: &mut Blocks, from: Addr) -> Result<Addr, CtxError>
    requires kind { blocks.old.kind ≡ Generation }
    requires agrees { Agrees (footprint blocks.old) space.old }
    requires block { block_at blocks.old from.region ≡ Some (record { number = 1; size = 1024; room = 768; live = 1; freed = 0 }) }
    requires chunk { chunk_at blocks.old from ≡ Some (record { size = 5; room = 8; own = false }) }
    requires known { IsKnown space.old from 5 }
    ensures inside { IfOk result (λ to. IsInside space.new to 5) }
    ensures known { IfOk result (λ to. IsKnown space.new to 5) }
{
    let to = blocks.cut(space, from.region, 16, 16, false);
    blocks.carry(space, from, to, 5);
    Ok(to)
}

#[test]
fn bytes_are_carried(rt: HostRuntime) -> Result<(), Fail> {
    let mut space = Space::new(rt.alloc(), 1, 100_000)?;
    let (mut blocks, from) = written(rt.alloc(), &mut space, b"abcde")?;
    let to = carried(&mut space, &mut blocks, from)?;
    let mut read = [0; 5];
    space.read(to, &mut read);
    assert_eq!(rt; read, *b"abcde");
    Ok(())
}
