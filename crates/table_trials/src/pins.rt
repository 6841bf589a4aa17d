//! Each call once, each refusal, a buffer that two sessions pin, and nine buffers.
use pin_table::{PinError, PinTable, SharedPins};

#[test]
fn counts_pins(rt: HostRuntime) {
    let mut shared = SharedPins::new(rt.alloc()).expect(&rt, "it is served");
    let mut pins = PinTable::new(rt.alloc());
    pins.pin(&mut shared, 7).expect(&rt, "it is served");
    pins.pin(&mut shared, 7).expect(&rt, "it is served");
    assert!(rt; shared.count(7) == 1);
    assert!(rt; pins.distinct() == 1);
    pins.unpin(&mut shared, 7).expect(&rt, "it is served");
    assert!(rt; shared.count(7) == 1);
    pins.unpin(&mut shared, 7).expect(&rt, "it is served");
    assert!(rt; shared.count(7) == 0);
    assert!(rt; pins.distinct() == 0);
}

#[test]
fn counts_sessions(rt: HostRuntime) {
    let mut shared = SharedPins::new(rt.alloc()).expect(&rt, "it is served");
    let mut first = PinTable::new(rt.alloc());
    let mut second = PinTable::new(rt.alloc());
    first.pin(&mut shared, 1023).expect(&rt, "it is served");
    second.pin(&mut shared, 1023).expect(&rt, "it is served");
    assert!(rt; shared.count(1023) == 2);
    second.unpin(&mut shared, 1023).expect(&rt, "it is served");
    assert!(rt; shared.count(1023) == 1);
}
