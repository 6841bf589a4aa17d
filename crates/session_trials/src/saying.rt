//! Events in few words, and what a session said before its exit.
use crate::Played;
use context_node::own_name;
use pgs_step::{Item, KindId, Name, What};
use std::test::Fail;

pub(crate) fn name(word: &[u8]) -> Result<Name, Fail> {
    Ok(Name::new(word).ok_or("no name")?)
}

/// The name of the context of level 1.
pub(crate) fn top() -> Name {
    own_name(b"TopTransactionContext")
}

/// The name of the context of a deeper level.
pub(crate) fn level() -> Name {
    own_name(b"CurTransactionContext")
}

pub(crate) fn create(context: u64, name: Name, parent: u64) -> What {
    What::Create {
        context,
        name,
        parent,
    }
}

pub(crate) fn owner_in(owner: u64, parent: u64) -> What {
    What::OwnerIn { owner, parent }
}

pub(crate) fn item(kind: KindId, key: u32, serial: u64) -> Item {
    Item { kind, key, serial }
}

pub(crate) fn acquire(item: Item, owner: u64) -> What {
    What::Acquire { item, owner }
}

pub(crate) fn release(item: Item, owner: u64) -> What {
    What::Release { item, owner }
}

pub(crate) fn not_closed(item: Item, owner: u64) -> What {
    What::NotClosed { item, owner }
}

/// What a session said before its exit. `None` comes where its five contexts don't go at its exit, or not as the last of all.
pub(crate) fn before_exit(played: &Played) -> Option<&[What]> {
    let exit = [
        What::Delete(5),
        What::Delete(4),
        What::Delete(3),
        What::Delete(2),
        What::Delete(1),
        What::Exit,
    ];
    played.out.events().strip_suffix(exit.as_slice())
}
