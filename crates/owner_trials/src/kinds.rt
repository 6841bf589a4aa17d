use owner_kinds::{CountedKind, ExtKind, KindError, KindShelf};
use pgs_step::{KindId, Name, Phase};
use std::test::Fail;

#[test]
fn built_in_kinds(rt: HostRuntime) -> Result<(), Fail> {
    let kinds: Vec<CountedKind> = Vec::new(rt.alloc());
    let shelf = KindShelf::new(rt.alloc(), kinds)?;
    let table = [
        (1, Phase::BeforeLocks, 200),
        (2, Phase::BeforeLocks, 300),
        (3, Phase::AfterLocks, 100),
        (4, Phase::AfterLocks, 200),
        (5, Phase::AfterLocks, 300),
        (6, Phase::AfterLocks, 400),
        (7, Phase::AfterLocks, 500),
        (8, Phase::AfterLocks, 600),
    ];
    for (kind, phase, priority) in table {
        assert_eq!(rt; shelf.phase(KindId(kind)), phase, "kind {kind}");
        assert_eq!(rt; shelf.priority(KindId(kind)), priority, "kind {kind}");
    }
    Ok(())
}

#[test]
fn extension_kinds(rt: HostRuntime) -> Result<(), Fail> {
    let alloc = rt.alloc();
    let conn = Name::new(b"conn").ok_or("no name")?;
    let mut kinds = Vec::new(alloc);
    kinds.push(CountedKind::new(alloc, conn, Phase::BeforeLocks, 350, 4))?;
    let shelf = KindShelf::new(alloc, kinds)?;
    assert_eq!(rt; shelf.names(), [conn].as_slice());
    assert_eq!(rt; shelf.find(&conn), Some(KindId(16)));
    assert_eq!(rt; shelf.phase(KindId(16)), Phase::BeforeLocks);
    assert_eq!(rt; shelf.priority(KindId(16)), 350);
    Ok(())
}

#[test]
fn keys_of_a_kind(rt: HostRuntime) -> Result<(), Fail> {
    let alloc = rt.alloc();
    let handle = Name::new(b"handle").ok_or("no name")?;
    let mut kinds = Vec::new(alloc);
    kinds.push(CountedKind::new(alloc, handle, Phase::AfterLocks, 250, 1))?;
    let mut shelf = KindShelf::new(alloc, kinds)?;
    assert_eq!(rt; shelf.open(KindId(16), 9), Ok(()));
    assert_eq!(rt; shelf.open(KindId(16), 7), Err(KindError::Full));
    shelf.close(KindId(16), 9);
    assert_eq!(rt; shelf.open(KindId(16), 7), Ok(()));
    Ok(())
}

#[test]
fn a_counted_kind(rt: HostRuntime) -> Result<(), Fail> {
    let alloc = rt.alloc();
    let conn = Name::new(b"conn").ok_or("no name")?;
    let mut kind = CountedKind::new(alloc, conn, Phase::BeforeLocks, 350, 2);
    assert_eq!(rt; kind.name(), conn);
    assert_eq!(rt; (kind.phase(), kind.priority()), (Phase::BeforeLocks, 350));
    assert_eq!(rt; (kind.open(5), kind.open(5)), (Ok(()), Ok(())));
    assert_eq!(rt; kind.open(6), Err(KindError::Full));
    kind.close(5);
    assert_eq!(rt; kind.open(6), Ok(()));
    Ok(())
}
