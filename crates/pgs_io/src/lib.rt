//! Where a program's bytes come from and go to, and the lines and words among them.
#![tactic(auto)]

mod feeding;
mod finding;
mod lines;
mod sinks;
mod sources;
mod splitting;
mod words;

pub use feeding::{Fed, Feed, MOST_READ};
pub use lines::LineBuf;
pub use sinks::{MemSink, Sink, StdSink, put_all};
pub use sources::{MemSource, Source, StdSource};
pub use splitting::split_line;
pub use words::{next_token, number};

/// A read or a write failed. The object that failed has counted it among its faults.
#[derive(Clone, Copy, PartialEq, Eq, Debug)]
pub struct Failed;
