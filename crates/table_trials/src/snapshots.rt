//! Each call once, each refusal, and what is on the stack after the ends of levels.
use pgs_step::{EventList, What};
use snap_table::{SnapError, SnapTable};

#[test]
fn counts_registrations(rt: HostRuntime) {
    let mut table = SnapTable::new(rt.alloc());
    table.register(9).expect(&rt, "it is served");
    table.register(9).expect(&rt, "it is served");
    assert!(rt; table.distinct() == 1);
    assert!(rt; table.unregister(9) == Ok(()));
    assert!(rt; table.unregister(9) == Ok(()));
    assert!(rt; table.unregister(9) == Err(SnapError::NotHeld));
    assert!(rt; table.distinct() == 0);
}

#[test]
fn pops_at_its_level(rt: HostRuntime) {
    let mut out = EventList::new(rt.alloc(), 9).expect(&rt, "it is served");
    let mut table = SnapTable::new(rt.alloc());
    assert!(rt; table.pop(1, &mut out) == Err(SnapError::NotHeld));
    table.push(4, 1, &mut out).expect(&rt, "it is served");
    table.push(5, 2, &mut out).expect(&rt, "it is served");
    table.sub_commit(2);
    assert!(rt; table.pop(2, &mut out) == Err(SnapError::NotHeld));
    assert!(rt; table.pop(1, &mut out) == Ok(()));
    table.register(4).expect(&rt, "it is served");
    assert!(rt; table.distinct() == 1);
    let events = [What::Push(4), What::Push(5), What::Pop(5)];
    assert!(rt; out.events() == events.as_slice());
}

#[test]
fn aborts_newest_first(rt: HostRuntime) {
    let mut out = EventList::new(rt.alloc(), 9).expect(&rt, "it is served");
    let mut table = SnapTable::new(rt.alloc());
    table.push(4, 1, &mut out).expect(&rt, "it is served");
    table.push(5, 2, &mut out).expect(&rt, "it is served");
    table.push(6, 3, &mut out).expect(&rt, "it is served");
    assert!(rt; table.distinct() == 3);
    table.sub_abort(2, &mut out);
    assert!(rt; table.distinct() == 1);
    let events = [
        What::Push(4),
        What::Push(5),
        What::Push(6),
        What::Pop(6),
        What::Pop(5),
    ];
    assert!(rt; out.events() == events.as_slice());
}
