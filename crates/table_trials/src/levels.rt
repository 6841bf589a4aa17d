use pgs_step::{CtxId, Name, OwnerId};
use std::test::*;
use subxact_stack::{Level, LevelError, Levels, MAX_DEPTH};

const CONTEXT: CtxId = CtxId { number: 6, slot: 5 };

const OWNER: OwnerId = OwnerId { number: 1, slot: 0 };

/// Level 1 with all that it can have.
const WHOLE: Level = Level {
    name: None,
    context: Some(CONTEXT),
    owner: Some(OWNER),
    implicit: true,
    aborted: true,
    starting: false,
};

fn fresh(name: Option<Name>, implicit: bool) -> Level {
    Level {
        name,
        context: None,
        owner: None,
        implicit,
        aborted: false,
        starting: true,
    }
}

#[test]
fn a_level_lives(rt: HostRuntime) -> Result<(), Fail> {
    let mut levels = Levels::new(rt.alloc());
    assert_eq!(rt; levels.depth(), 0);
    assert_eq!(rt; levels.at(1), None);
    assert_eq!(rt; levels.pop(), None);
    assert_eq!(rt; levels.begin(None, true), Ok(1));
    assert_eq!(rt; levels.at(1).copied(), Some(fresh(None, true)));
    assert!(rt; levels.depth() == 1);
    levels.set_context(CONTEXT);
    assert!(rt; levels.depth() == 1);
    levels.set_owner(OWNER);
    assert!(rt; levels.depth() == 1);
    levels.started();
    assert!(rt; levels.depth() == 1);
    levels.mark_aborted();
    assert_eq!(rt; levels.at(1).copied(), Some(WHOLE));
    assert_eq!(rt; levels.at(0), None);
    assert_eq!(rt; levels.at(2), None);
    assert_eq!(rt; levels.pop(), Some(WHOLE));
    assert_eq!(rt; levels.depth(), 0);
    Ok(())
}

#[test]
fn the_deepest_savepoint_of_a_name(rt: HostRuntime) -> Result<(), Fail> {
    let s = Name::new(b"s").ok_or("no name")?;
    let t = Name::new(b"t").ok_or("no name")?;
    let mut levels = Levels::new(rt.alloc());
    assert_eq!(rt; levels.find(&s), None);
    // Level 1 is no savepoint, even where it has the name.
    assert_eq!(rt; levels.begin(Some(s), false), Ok(1));
    assert_eq!(rt; levels.find(&s), None);
    assert_eq!(rt; levels.begin(Some(s), false), Ok(2));
    assert_eq!(rt; levels.begin(Some(t), false), Ok(3));
    assert_eq!(rt; levels.begin(Some(s), false), Ok(4));
    assert_eq!(rt; levels.begin(None, false), Ok(5));
    assert_eq!(rt; levels.find(&s), Some(4));
    assert_eq!(rt; levels.find(&t), Some(3));
    assert_eq!(rt; levels.pop(), Some(fresh(None, false)));
    assert_eq!(rt; levels.pop(), Some(fresh(Some(s), false)));
    assert_eq!(rt; levels.find(&s), Some(2));
    Ok(())
}

#[test]
fn a_thousand_levels(rt: HostRuntime) -> Result<(), Fail> {
    let mut levels = Levels::new(rt.alloc());
    for level in 1..=MAX_DEPTH as u32 {
        assert_eq!(rt; levels.begin(None, false), Ok(level));
    }
    assert_eq!(rt; levels.begin(None, false), Err(LevelError::TooMany));
    assert_eq!(rt; levels.depth(), 1000);
    assert_eq!(rt; levels.pop(), Some(fresh(None, false)));
    assert_eq!(rt; levels.begin(None, true), Ok(1000));
    Ok(())
}
