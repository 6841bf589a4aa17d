//! Worked examples on whole runs: scripts and their transcripts, with reads and writes that fail, and the options of a run.
#![tactic(auto)]

#[cfg(test)]
mod options;
#[cfg(test)]
mod stingy;
#[cfg(test)]
mod tests;
