//! What an aligned chunk asks for, and where it begins.
ghost use Rattle.std.specs.Prelude.{◌<◌};
ghost use Rattle.addr_space.specs.Space.{accounts};

use addr_space::{Addr, Space, SpaceError};
use aligned_ctx::{request, set_redirect};
use std::test::Fail;

// Where an aligned chunk begins that lies behind the first 512 bytes of a region.
fn redirected(space: &mut Space) -> Result<Addr, SpaceError>
    requires { 0 < accounts space.old }
{
    let region = space.take(0, 1024)?.region;
    let inner = Addr {
        region,
        offset: 512,
    };
    Ok(set_redirect(space, inner, 64))
}

#[test]
fn an_aligned_chunk_begins_at_a_multiple(rt: HostRuntime) -> Result<(), Fail> {
    let mut space = Space::new(rt.alloc(), 1, 8192)?;
    let place = redirected(&mut space)?;
    assert_eq!(rt; place.offset, 576);
    Ok(())
}

#[test]
fn an_aligned_chunk_asks_for_more(rt: HostRuntime) {
    assert_eq!(rt; (request(100, 64), request(u64::MAX, 16)), (164, u64::MAX));
}
