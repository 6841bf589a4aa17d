//! Worked examples on the lines of scripts, on the texts of events, on names and modes, on sources and sinks, on the lines of a report on
//! contexts, and on reserved names.
#![tactic(auto)]

#[cfg(test)]
mod commands;
mod counting;
#[cfg(test)]
mod report_lines;
#[cfg(test)]
mod reserved_names;
#[cfg(test)]
mod streams;
#[cfg(test)]
mod texts;

pub use counting::count_lines;
