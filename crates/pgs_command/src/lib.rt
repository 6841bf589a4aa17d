//! The lines of a script: what each of them asks for.
#![tactic(auto)]

mod commands;
mod hex_bytes;
mod kinds;
mod lines;
mod picks;
mod values;
mod words;

pub use commands::{
    ChunkCommand, Command, ContextCommand, ItemCommand, LockCommand, PlanCommand, PortalCommand,
    SnapshotCommand, TellCommand, TransactionCommand, Work,
};
pub use hex_bytes::HexBytes;
pub use kinds::{ContextKind, ReferenceClass};
pub use lines::{BadLine, Line, parse_command, parse_command_into, parse_line, parse_session};
