//! The resource owners of one session, and the tables that count what they hold, as one value. Each call is told
//! in the terms of the session's rules: which of its acts it is. The tables tell how often each buffer is pinned and each reference
//! is held, the open files, the snapshots and the plans. They know no owner.
#![tactic(auto)]

mod commons;
mod lent;
mod place;
mod plans;
mod resources;
mod tables;

pub use commons::Commons;
pub use place::PlanContexts;
pub use resources::Resources;
pub use tables::Tables;
