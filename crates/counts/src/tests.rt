//! Each call once, at numbers and at pairs.
use crate::Counts;
use std::test::Fail;

#[test]
fn counts_numbers(rt: HostRuntime) -> Result<(), Fail> {
    let mut counts = Counts::new(rt.alloc());
    counts.raise(7u32)?;
    counts.raise(7)?;
    counts.raise(9)?;
    assert_eq!(rt; counts.count(7), 2);
    assert_eq!(rt; counts.distinct(), 2);
    assert_eq!(rt; counts.lower(7), Some(1));
    assert_eq!(rt; counts.lower(7), Some(0));
    assert_eq!(rt; counts.lower(7), None);
    assert_eq!(rt; counts.distinct(), 1);
    Ok(())
}

#[test]
fn counts_pairs(rt: HostRuntime) -> Result<(), Fail> {
    let mut counts = Counts::new(rt.alloc());
    counts.raise((2u8, 7u32))?;
    counts.raise((3, 7))?;
    assert_eq!(rt; counts.count((2, 7)), 1);
    assert_eq!(rt; counts.count((2, 8)), 0);
    assert_eq!(rt; counts.distinct(), 2);
    Ok(())
}
