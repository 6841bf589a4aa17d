//! Worked examples on the tables of a session: pins, plans, snapshots, files, portals, levels, callbacks and scans.
#![tactic(auto)]

#[cfg(test)]
mod callbacks;
#[cfg(test)]
mod files;
#[cfg(test)]
mod levels;
#[cfg(test)]
mod pins;
#[cfg(test)]
mod plans;
#[cfg(test)]
mod portals;
#[cfg(test)]
mod scans;
#[cfg(test)]
mod snapshots;
