//! The kinds of resources that owners remember: those that are built in, and those that the program adds.
#![tactic(auto)]

mod counted_kind;
mod ext_kind;
mod kind_row;
mod kind_shelf;

pub use counted_kind::CountedKind;
pub use ext_kind::{ExtKind, KindError};
pub use kind_row::KindRow;
pub use kind_shelf::KindShelf;
