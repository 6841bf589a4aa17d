//! The sessions of a run: what lines ask of them, and how they start, take turns and end; and the script that a program makes
//! itself: its lines, their run, and what is told of it; and the run of a script that is kept whole.
#![tactic(auto)]

mod counter;
mod counting;
mod generating;
mod lines;
mod made_lines;
mod pieces;
mod sessions;
mod telling;
mod transcript;

pub use counting::{Counted, count_script};
pub use generating::{Generated, generate};
pub use lines::{Said, is_comment, read_line};
pub use session_core::{Calls, Session, Shared};
pub use sessions::{end_unheard, exit_all, start_sessions, take_turn};
pub use telling::run_line;
pub use transcript::Transcript;
