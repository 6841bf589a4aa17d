//! What a space answers, and whose bytes it counts.
ghost use Rattle.std.specs.Prelude.{◌<◌};
ghost use Rattle.addr_space.specs.Space.{accounts};

use addr_space::{Addr, Space, SpaceError};
use std::test::Fail;

#[test]
fn one_account_fills_up(rt: HostRuntime) -> Result<(), Fail> {
    let mut space = Space::new(rt.alloc(), 2, 100)?;
    assert_eq!(rt; space.accounts(), 2);
    let first = space.take(1, 60)?;
    assert_eq!(rt; first.offset, 0);
    assert_eq!(rt; space.take(1, 41), Err(SpaceError::NoSpace));
    assert!(rt; space.fits(1, 40));
    assert_eq!(rt; space.held(1), 60);
    assert_eq!(rt; space.held(0), 0);
    Ok(())
}

// What the first account has taken once its region grew, whether one more byte fits under a lower limit, and what the
// account holds and has taken once the region went.
fn grown_and_gone(space: &mut Space) -> Result<(u64, bool, u64, u64), SpaceError>
    requires { 0 < accounts space.old }
{
    let at = space.take(0, 60)?;
    space.resize(at, 70)?;
    let grown = space.taken(0);
    space.set_limit(50);
    let fits = space.fits(0, 1);
    space.give(at);
    Ok((grown, fits, space.held(0), space.taken(0)))
}

#[test]
fn a_region_grows_and_goes(rt: HostRuntime) -> Result<(), Fail> {
    let mut space = Space::new(rt.alloc(), 1, 100)?;
    let said = grown_and_gone(&mut space)?;
    assert_eq!(rt; said, (70, false, 0, 70));
    Ok(())
}

#[test]
fn the_memory_of_a_region_serves_again(rt: HostRuntime) -> Result<(), Fail> {
    let mut space = Space::new(rt.alloc(), 2, 8192)?;
    let first = space.take(0, 8192)?;
    space.write(first, &[7, 9]);
    space.give(first);
    let again = space.take(1, 8192)?;
    space.write(again, &[5]);
    assert_eq!(rt; space.held(0), 0);
    assert_eq!(rt; space.held(1), 8192);
    assert_eq!(rt; space.taken(0), 8192);
    Ok(())
}

#[test]
fn bytes_are_copied(rt: HostRuntime) -> Result<(), Fail> {
    let mut space = Space::new(rt.alloc(), 1, 2000)?;
    let at = space.take(0, 8)?;
    space.write(at, &[7, 9]);
    let to = Addr {
        region: at.region,
        offset: 4,
    };
    space.copy(at, to, 2);
    let mut out = [0; 2];
    space.read(to, &mut out);
    assert_eq!(rt; out, [7, 9]);
    Ok(())
}
