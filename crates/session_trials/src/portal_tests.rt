//! What whole sessions say of portals.

use crate::saying::{acquire, before_exit, create, item, level, name, owner_in, release, top};
use crate::{Played, outcome};
use pgs_command::{Command, LockCommand, PortalCommand, TransactionCommand, Work};
use pgs_step::{Error, KindId, Mode, Name, What};
use session_core::StartError;
use std::alloc::Global;
use std::test::Fail;

fn row(portal: Name, row: u32, value: u32) -> What {
    What::Row { portal, row, value }
}

/// A portal is fetched from to its end and ended.
fn fetch_two_pages(alloc: Global, portal: Name) -> Result<Played, StartError> {
    let commands = [
        Command::Transaction(TransactionCommand::Begin),
        Command::Work(Work::Portals(PortalCommand::Open {
            name: portal,
            object: 3,
            rows: 12,
            bad: None,
        })),
        Command::Work(Work::Portals(PortalCommand::Fetch {
            name: portal,
            count: 20,
        })),
        Command::Work(Work::Portals(PortalCommand::End(portal))),
        Command::Transaction(TransactionCommand::Commit),
    ];
    outcome(alloc, 0, commands.as_slice())
}

#[test]
fn a_portal_is_fetched_from_page_by_page_and_ends(rt: HostRuntime) -> Result<(), Fail> {
    let portal = name(b"q")?;
    let mode = Mode::AccessShareLock;
    let portal_context = name(b"PortalContext")?;
    let expr_context = name(b"ExprContext")?;
    let played = fetch_two_pages(rt.alloc(), portal)?;
    let relation = item(KindId::RELCACHE_REFERENCE, 3, 1);
    let snapshot = item(KindId::SNAPSHOT_REFERENCE, 3, 2);
    let page = item(KindId::BUFFER_PIN, 3, 3);
    let next_page = item(KindId::BUFFER_PIN, 4, 4);
    let events = [
        What::BeginLevel(1),
        create(6, top(), 1),
        What::Owner(1),
        What::Ok,
        create(7, portal_context, 4),
        owner_in(2, 1),
        What::AcquireLock {
            object: 3,
            mode,
            owner: 2,
        },
        acquire(relation, 2),
        acquire(snapshot, 2),
        create(8, expr_context, 7),
        What::Ok,
        acquire(page, 2),
        row(portal, 0, 93),
        What::Reset(8),
        row(portal, 1, 100),
        What::Reset(8),
        row(portal, 2, 107),
        What::Reset(8),
        row(portal, 3, 114),
        What::Reset(8),
        row(portal, 4, 121),
        What::Reset(8),
        row(portal, 5, 128),
        What::Reset(8),
        row(portal, 6, 135),
        What::Reset(8),
        row(portal, 7, 142),
        What::Reset(8),
        row(portal, 8, 149),
        What::Reset(8),
        row(portal, 9, 156),
        What::Reset(8),
        release(page, 2),
        acquire(next_page, 2),
        row(portal, 10, 163),
        What::Reset(8),
        row(portal, 11, 170),
        release(next_page, 2),
        What::Fetched { portal, rows: 12 },
        What::Ok,
        release(relation, 2),
        release(snapshot, 2),
        What::PassLock {
            object: 3,
            mode,
            count: 1,
            from: 2,
            to: 1,
        },
        What::OwnerGone(2),
        What::Delete(8),
        What::Delete(7),
        What::Ok,
        What::CommitLevel(1),
        What::ReleaseLock {
            object: 3,
            mode,
            count: 1,
            owner: 1,
        },
        What::OwnerGone(1),
        What::Delete(6),
        What::Ok,
    ];
    assert_eq!(rt; before_exit(&played), Some(events.as_slice()));
    assert_eq!(rt; (played.depth, played.held), (0, 0));
    Ok(())
}
