//! Worked examples on the resource owners of a session and what they hold: items, kinds, locks, trees and tables.
#![tactic(auto)]

#[cfg(test)]
mod items;
#[cfg(test)]
mod kinds;
#[cfg(test)]
mod local_locks;
#[cfg(test)]
mod owners;
#[cfg(test)]
mod session_resources;
#[cfg(test)]
mod shared_locks;
#[cfg(test)]
mod tables;
#[cfg(test)]
mod trees;
