//! A scan of a made-up table: which steps it takes for each of its rows.
#![tactic(auto)]

mod scan;
mod steps;

pub use scan::{Scan, Stage};
pub use steps::ScanStep;
