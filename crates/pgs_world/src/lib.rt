//! The program: it reads a script of one to 64 sessions and writes its transcript, or makes a script and tells of its run. Its options
//! are those that the command line gives.
#![tactic(auto)]

mod options;
mod performing;
mod printer;
mod program;
mod sweeping;
mod whole_script;

pub use options::{
    DEFAULT_DESCRIPTORS, DEFAULT_SESSIONS, DEFAULT_SPACE, MOST_HELD, Options, OptionsError,
    read_options,
};
pub use program::{Outcome, run};
