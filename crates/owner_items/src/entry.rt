use pgs_step::Item;

/// An item in the table, and the number of the next older live entry of its kind and key.
#[derive(Clone, Copy)]
pub(crate) struct Entry {
    pub item: Item,
    pub older: Option<usize>,
    /// Whether the item is remembered still.
    pub live: bool,
}
