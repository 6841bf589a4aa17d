//! The cached plans of a session.
#![tactic(auto)]

mod making_order;
mod plan;
mod standing;
mod store;

pub use plan::{Plan, PlanError};
pub use store::{PLANS, PlanStore};
