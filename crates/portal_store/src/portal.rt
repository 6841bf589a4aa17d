//! One portal.
ghost use Rattle.std.specs.Prelude.{◌≡◌, ◌∷◌, ◌<◌, ◌≤◌};

use exec_core::{Scan, ScanStep, Stage};
use pgs_step::{CtxId, Name, OwnerId};
use thiserror::Error;

/// How far a portal is: PostgreSQL's `PortalStatus`.
#[derive(Clone, Copy, Debug, PartialEq, Eq)]
pub enum PortalState {
    /// It is still being made.
    New,
    /// Its scan may be fetched from.
    Ready,
    /// Its query failed, or the level that made it was aborted.
    Failed,
}

/// Why a portal could not be made.
#[derive(Clone, Copy, Debug, PartialEq, Eq, Error)]
pub enum PortalError {
    /// There is a portal of that name.
    #[error("the portal is there")]
    Taken,
    /// The session has 1,024 portals.
    #[error("too many portals")]
    TooMany,
    /// Memory was refused.
    #[error("no memory")]
    Memory,
}

/// A query that is open: PostgreSQL's `Portal`.
///
/// `context` is its memory, `expr` the memory of one row below it, `owner` holds what the query uses; each is
/// there once it has been made. `scan` is where the query stands. `created` is the level that it belongs to,
/// `active` the deepest level that has fetched from it.
#[derive(Clone, Copy, Debug, PartialEq, Eq)]
pub struct Portal {
    pub name: Name,
    pub context: Option<CtxId>,
    pub expr: Option<CtxId>,
    pub owner: Option<OwnerId>,
    pub scan: Scan,
    pub created: u32,
    pub active: u32,
    pub state: PortalState,
}

impl Portal {
    ghost use Rattle.exec_core.specs.Turn.{IsScan, rest, taken};
    ghost use Rattle.portal_store.specs.Portal.{coming, to_parent, sub_aborted, moved_owner};

    /// The next step of its scan. Where a turn begins, one that was left in the middle begins anew.
    #[inline]
    pub(crate) fn step(&mut self, begins: bool) -> ScanStep
        requires { IsScan self.old.scan }
        ensures step { coming begins self.old.scan ≡ result ∷ rest result (taken result self.old.scan) }
        ensures portal { self.new ≡ record self.old { scan = taken result self.old.scan } }
        ensures scan { IsScan (taken result self.old.scan) }
    {
        if begins {
            self.scan.stage = Stage::AtRest;
        }
        self.scan.next()
    }

    /// A subtransaction of this level has committed.
    pub(crate) fn to_parent(&mut self, level: u32)
        requires { 0 < level }
        ensures portal { self.new ≡ to_parent level self.old }
        ensures created { self.new.created ≤ self.old.created }
        ensures active { self.new.active ≤ self.old.active }
    {
        if self.created == level {
            self.created = level - 1;
        }
        if self.active == level {
            self.active = level - 1;
        }
    }

    /// A subtransaction of this level is being aborted. The owner that it gives moves to the level's owner.
    pub(crate) fn sub_abort(&mut self, level: u32) -> Option<OwnerId>
        ensures portal { self.new ≡ sub_aborted level self.old }
        ensures moved { result ≡ moved_owner level self.old }
        ensures created { self.new.created ≤ self.old.created }
        ensures active { self.new.active ≤ self.old.active }
    {
        if self.created == level {
            self.state = PortalState::Failed;
            self.owner = None;
            self.expr = None;
            return None;
        }
        if self.created > level || self.active != level {
            return None;
        }
        self.active = level - 1;
        match self.state {
            PortalState::Failed => self.owner.take(),
            PortalState::New | PortalState::Ready => None,
        }
    }
}
