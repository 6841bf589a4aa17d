//! The line of text of each event.
#![tactic(auto)]

mod pieces;
mod report_texts;
mod texts;

pub use texts::{append_create, append_row, append_text, text, text_with};
