//! The buffers that a session pins, and how many sessions pin each.
#![tactic(auto)]

mod pins;
mod private;
mod shared;

pub use pins::{PinError, PinTable};
pub use shared::{BUFFERS, SharedPins};
