use exec_core::{Scan, ScanStep};
use pgs_step::{CtxId, Name, OwnerId};
use portal_store::{MAX_PORTALS, Portal, PortalError, PortalState, Portals};
use std::process::Abort;
use std::test::*;

const OWNER: OwnerId = OwnerId { number: 2, slot: 1 };

/// A portal that was created at level 1.
fn portal(name: Name, active: u32, owner: Option<OwnerId>, state: PortalState) -> Portal {
    Portal {
        name,
        context: Some(CtxId { number: 7, slot: 6 }),
        expr: Some(CtxId { number: 8, slot: 7 }),
        owner,
        scan: Scan::new(40, 30, Some(3)),
        created: 1,
        active,
        state,
    }
}

/// Puts a portal in the place of a live one.
fn put(rt: &impl Abort, portals: &mut Portals, portal: Portal) {
    assert!(rt; portals.get(&portal.name).is_some());
    portals.put(portal);
}

/// Gives a portal that is live all that it gets when it is made, and what is set as it runs.
fn equip(rt: &impl Abort, portals: &mut Portals, name: &Name) {
    assert!(rt; portals.get(name).is_some());
    portals.set_context(name, CtxId { number: 7, slot: 6 });
    assert!(rt; portals.get(name).is_some());
    portals.set_expr(name, CtxId { number: 8, slot: 7 });
    assert!(rt; portals.get(name).is_some());
    portals.set_owner(name, OWNER);
    if let Some(place) = portals.place_of(name) {
        assert!(rt; place < portals.len());
        portals.set_active_at(place, 2);
    }
    assert!(rt; portals.get(name).is_some());
    portals.set_state(name, PortalState::Failed);
}

/// The next step of the scan of a live portal, which stands before its first row.
fn step(rt: &impl Abort, portals: &mut Portals, name: &Name, begins: bool) -> Option<ScanStep> {
    let place = portals.place_of(name)?;
    assert!(rt; place < portals.len());
    let scan = portals.at(place)?.scan;
    assert!(rt; scan.at == 0);
    assert!(rt; scan.rows > 0);
    Some(portals.step_at(place, begins))
}

/// What the newest portal is when a subtransaction of this level aborts, and the owner that moves.
fn sub_abort(rt: &impl Abort, portals: &mut Portals, level: u32) -> Option<OwnerId> {
    assert!(rt; portals.len() > 0);
    portals.sub_abort(0, level)
}

#[test]
fn a_portal_lives(rt: HostRuntime) {
    let p = Name::new(b"p").ok_or("no name").expect(&rt, "it is served");
    let mut portals = Portals::new(rt.alloc());
    assert!(rt; portals.is_empty());
    assert!(rt; portals.create(p, Scan::new(40, 30, Some(3)), 1) == Ok(()));
    assert!(rt; portals.create(p, Scan::new(40, 30, None), 2) == Err(PortalError::Taken));
    assert!(rt; portals.get(&p).map(|portal| portal.state) == Some(PortalState::New));
    put(&rt, &mut portals, portal(p, 1, None, PortalState::Ready));
    assert!(rt; portals.get(&p).copied() == Some(portal(p, 1, None, PortalState::Ready)));
    equip(&rt, &mut portals, &p);
    assert!(rt; portals.take_out(&p) == Some(portal(p, 2, Some(OWNER), PortalState::Failed)));
    assert!(rt; portals.get(&p) == None);
    assert!(rt; portals.take_out(&p) == None);
}

/// A turn goes on where it was left, or begins anew. Another portal's scan stays where it is.
#[test]
fn a_scan_takes_its_steps(rt: HostRuntime) {
    let p = Name::new(b"p").ok_or("no name").expect(&rt, "it is served");
    let q = Name::new(b"q").ok_or("no name").expect(&rt, "it is served");
    let mut portals = Portals::new(rt.alloc());
    assert!(rt; portals.create(p, Scan::new(40, 30, Some(3)), 1) == Ok(()));
    assert!(rt; portals.create(q, Scan::new(40, 30, Some(3)), 1) == Ok(()));
    for (begins, expected) in [
        (true, ScanStep::Reset),
        (false, ScanStep::Pin(40)),
        (true, ScanStep::Reset),
        (false, ScanStep::Pin(40)),
        (false, ScanStep::Alloc),
        (false, ScanStep::Row(0, 240)),
    ] {
        assert!(rt; step(&rt, &mut portals, &p, begins) == Some(expected));
    }
    assert!(rt; portals.get(&q).map(|portal| portal.scan) == Some(Scan::new(40, 30, Some(3))));
}

/// The newest stands in front, and stays there where both go to the parent.
#[test]
fn goes_to_the_parent(rt: HostRuntime) {
    let p = Name::new(b"p").ok_or("no name").expect(&rt, "it is served");
    let q = Name::new(b"q").ok_or("no name").expect(&rt, "it is served");
    let mut portals = Portals::new(rt.alloc());
    assert!(rt; portals.create(p, Scan::new(1, 5, None), 2) == Ok(()));
    assert!(rt; portals.create(q, Scan::new(2, 5, None), 3) == Ok(()));
    assert!(rt; portals.at(0).map(|portal| (portal.name, portal.created)) == Some((q, 3)));
    portals.to_parent(3);
    assert!(rt; portals.at(0).map(|portal| (portal.created, portal.active)) == Some((2, 2)));
    portals.to_parent(2);
    assert!(rt; portals.at(0).map(|portal| (portal.created, portal.active)) == Some((1, 1)));
    assert!(rt; portals.at(1).map(|portal| (portal.name, portal.created)) == Some((p, 1)));
    assert!(rt; portals.at(2) == None);
}

/// Aborts of a subtransaction of level 2: a portal of level 1 that failed in it gives its owner away once,
/// one that is ready keeps it, and one that is not active there stays. The abort of level 1 then fails it.
#[test]
fn aborts_of_subtransactions(rt: HostRuntime) {
    let p = Name::new(b"p").ok_or("no name").expect(&rt, "it is served");
    let mut portals = Portals::new(rt.alloc());
    assert!(rt; portals.create(p, Scan::new(40, 30, Some(3)), 1) == Ok(()));
    for (active, owner, state, moved, kept) in [
        (2, Some(OWNER), PortalState::Failed, Some(OWNER), None),
        (2, None, PortalState::Failed, None, None),
        (2, Some(OWNER), PortalState::Ready, None, Some(OWNER)),
        (1, Some(OWNER), PortalState::Failed, None, Some(OWNER)),
    ] {
        put(&rt, &mut portals, portal(p, active, owner, state));
        assert!(rt; sub_abort(&rt, &mut portals, 2) == moved);
        assert!(rt; portals.get(&p).copied() == Some(portal(p, 1, kept, state)));
    }
    assert!(rt; sub_abort(&rt, &mut portals, 1) == None);
    let failed = portals
        .get(&p)
        .map(|portal| (portal.owner, portal.expr, portal.state));
    assert!(rt; failed == Some((None, None, PortalState::Failed)));
}

#[test]
fn as_many_portals_as_there_may_be(rt: HostRuntime) {
    let mut portals = Portals::new(rt.alloc());
    for i in 0..MAX_PORTALS {
        let name = numbered(i).ok_or("no name").expect(&rt, "it is served");
        assert!(rt; portals.create(name, Scan::new(1, 1, None), 1) == Ok(()));
    }
    let last = numbered(1023).ok_or("no name").expect(&rt, "it is served");
    let next = numbered(1024).ok_or("no name").expect(&rt, "it is served");
    assert!(rt; portals.create(next, Scan::new(1, 1, None), 1) == Err(PortalError::TooMany));
    assert!(rt; portals.create(last, Scan::new(1, 1, None), 1) == Err(PortalError::Taken));
    assert!(rt; portals.take_out(&last).is_some());
    assert!(rt; portals.create(next, Scan::new(1, 1, None), 1) == Ok(()));
    assert!(rt; portals.len() == 1024);
}

/// The portal name of a number below 2,600.
fn numbered(i: usize) -> Option<Name> {
    let digits = [
        b'a' + (i / 100 % 26) as u8,
        b'0' + (i / 10 % 10) as u8,
        b'0' + (i % 10) as u8,
    ];
    Name::new(&digits)
}
