//! Worked examples on the files of nodes, on passes over rows, and on nodes.
#![tactic(auto)]

#[cfg(test)]
mod files;
#[cfg(test)]
mod nodes;
#[cfg(test)]
mod passes;
