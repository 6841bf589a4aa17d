use addr_space::Space;
use agg_pass::AggPass;
use agg_rules::Row;
use std::test::*;
use temp_store::TempStore;

/// A pass that holds one group meets a row of it and a row of another one, which goes to a file.
#[test]
fn one_group_is_held(rt: HostRuntime) -> Result<(), Fail> {
    let mut space = Space::new(rt.alloc(), 1, 100_000)?;
    let mut temp = TempStore::new(rt.alloc(), 1000);
    let mut pass = AggPass::create(rt.alloc(), &mut space, 0, 1)?;
    let first = Row { group: 1, value: 5 };
    let second = Row { group: 0, value: 7 };
    pass.meet(&mut space, &mut temp, first)?;
    pass.meet(&mut space, &mut temp, second)?;
    assert_eq!(rt; pass.len(), 1);
    assert!(rt; pass.has(1) && !pass.has(0));
    assert_eq!(rt; (temp.held(), temp.written()), (8, 8));
    assert_eq!(rt; space.held(0), 8192);
    let _file = pass.discard(&mut space);
    assert_eq!(rt; space.held(0), 0);
    Ok(())
}
