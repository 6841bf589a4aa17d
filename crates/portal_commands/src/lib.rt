//! The commands on portals: a query is opened under a name, rows are fetched from it, and it is closed.
#![tactic(auto)]

mod ending;
mod fetching;
mod making;
mod steps;
mod turns;
mod works;

pub use works::work_on_portals;
