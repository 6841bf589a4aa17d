//! Pins of two sessions. What a session says of its plans is in session_trials.
use pin_table::SharedPins;
use session_owners::Tables;
use std::test::Fail;

#[test]
fn each_of_two_sessions_counts_once(rt: HostRuntime) -> Result<(), Fail> {
    let mut shared = SharedPins::new(rt.alloc())?;
    let mut first = Tables::new(rt.alloc(), 8)?;
    let mut second = Tables::new(rt.alloc(), 8)?;
    first.pin(7, &mut shared);
    second.pin(7, &mut shared);
    first.pin(7, &mut shared);
    assert_eq!(rt; shared.count(7), 2);
    assert_eq!(rt; first.pinned_buffers(), 1);
    Ok(())
}
