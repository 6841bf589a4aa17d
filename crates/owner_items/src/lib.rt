//! The items that one resource owner remembers.
#![tactic(auto)]

mod entry;
mod gather;
mod held;
mod index;
mod item_list;
mod ranking;
mod table;

pub use item_list::Items;
