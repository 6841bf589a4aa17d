//! Worked examples on the memory crates: spaces, header words, blocks, and the contexts of each kind.
#![tactic(auto)]

#[cfg(test)]
mod aligned;
#[cfg(test)]
mod any_kinds;
#[cfg(test)]
mod blocks;
#[cfg(test)]
mod bumps;
#[cfg(test)]
mod generations;
#[cfg(test)]
mod headers;
#[cfg(test)]
mod raw_blocks;
#[cfg(test)]
mod sets;
#[cfg(test)]
mod slabs;
#[cfg(test)]
mod spaces;
