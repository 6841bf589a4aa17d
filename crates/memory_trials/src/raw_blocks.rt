//! Blocks of bytes: what was written is read again.
ghost use Rattle.std.specs.Prelude.{◌≡◌, ◌≤◌, IfOk};

use block_mem::RawBlock;
use std::alloc::{AllocError, Global};
use std::test::Fail;

// Writes the last byte of a block and reads it.
fn last_byte(alloc: Global, len: u32) -> Result<u8, AllocError>
    requires { 1 ≤ len }
    ensures { IfOk result (λ byte. byte ≡ 7) }
{
    let mut block = RawBlock::new(alloc, len)?;
    block.write(len - 1, &[7]);
    let mut out = [0];
    block.read(len - 1, &mut out);
    Ok(out[0])
}

#[test]
fn only_the_last_byte_is_written(rt: HostRuntime) -> Result<(), Fail> {
    assert_eq!(rt; last_byte(rt.alloc(), 8_388_608)?, 7);
    Ok(())
}

#[test]
fn first_bytes_are_kept(rt: HostRuntime) -> Result<(), Fail> {
    let mut block = RawBlock::new(rt.alloc(), 16)?;
    block.write(0, b"postgres");
    block.resize(4096)?;
    block.resize(8)?;
    let mut out = [0; 8];
    block.read(0, &mut out);
    assert_eq!(rt; out, *b"postgres");
    assert_eq!(rt; block.len(), 8);
    Ok(())
}

#[test]
fn bytes_move_up(rt: HostRuntime) -> Result<(), Fail> {
    let mut block = RawBlock::new(rt.alloc(), 8)?;
    block.write(2, &[1, 2, 3]);
    block.copy_within(1, 2, 4);
    let mut out = [0; 3];
    block.read(3, &mut out);
    assert_eq!(rt; out, [1, 2, 3]);
    Ok(())
}
