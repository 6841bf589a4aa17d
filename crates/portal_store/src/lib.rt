//! The portals of a session: queries that are open, each with its scan.
#![tactic(auto)]

mod places;
mod portal;
mod portals;
mod reach;

pub use portal::{Portal, PortalError, PortalState};
pub use portals::{MAX_PORTALS, Portals};
