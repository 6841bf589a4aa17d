//! The laws of lifetimes, as definitions over the events of a run alone: see specs/. There is no code here; what
//! makes events, or checks them, cites the laws.
#![tactic(auto)]
