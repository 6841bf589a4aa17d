use std::test::*;
use temp_store::{TempError, TempStore};

/// Two files share a limit of ten bytes. The bytes of each come back in order.
#[test]
fn two_files_share_a_limit(rt: HostRuntime) -> Result<(), Fail> {
    let mut store = TempStore::new(rt.alloc(), 10);
    let first = store.make()?;
    let second = store.make()?;
    assert_eq!(rt; store.append(first, b"abcd"), Ok(()));
    assert_eq!(rt; store.append(second, b"xyz"), Ok(()));
    assert_eq!(rt; store.append(first, b"ef"), Ok(()));
    assert_eq!(rt; store.append(second, b"12"), Err(TempError::Full));
    assert_eq!(rt; store.append(second, b"1"), Ok(()));
    assert_eq!(rt; (store.len(first), store.len(second)), (6, 4));
    assert_eq!(rt; (store.held(), store.written()), (10, 10));
    let mut out = [0; 3];
    store.read(first, 2, &mut out);
    assert_eq!(rt; out, *b"cde");
    store.drop_file(first);
    assert_eq!(rt; (store.held(), store.written()), (4, 10));
    store.read(second, 1, &mut out);
    assert_eq!(rt; out, *b"yz1");
    store.drop_file(second);
    assert_eq!(rt; (store.held(), store.written()), (0, 10));
    Ok(())
}
