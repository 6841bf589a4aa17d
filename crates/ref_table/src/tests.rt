//! Each call once, and the refusal.
use crate::{RefError, RefTable};
use pgs_step::KindId;
use std::test::Fail;

#[test]
fn counts_references(rt: HostRuntime) -> Result<(), Fail> {
    let mut table = RefTable::new(rt.alloc());
    table.add(KindId::TUPLE_DESCRIPTOR_REFERENCE, 6)?;
    table.add(KindId::TUPLE_DESCRIPTOR_REFERENCE, 6)?;
    table.add(KindId::RELCACHE_REFERENCE, 6)?;
    assert_eq!(rt; table.distinct(), 2);
    assert_eq!(rt; table.drop_ref(KindId::RELCACHE_REFERENCE, 6), Ok(()));
    assert_eq!(rt;
        table.drop_ref(KindId::RELCACHE_REFERENCE, 6),
        Err(RefError::NotHeld)
    );
    assert_eq!(rt;
        table.drop_ref(KindId::TUPLE_DESCRIPTOR_REFERENCE, 7),
        Err(RefError::NotHeld)
    );
    assert_eq!(rt; table.distinct(), 1);
    Ok(())
}
