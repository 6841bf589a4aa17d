ghost use Rattle.std.specs.Prelude.{◌≡◌, ◌+◌, ◌≤◌, ◌++◌, true, false, reverse, filter, map, length, All, vec_len, vec_capacity, MatchOption};
ghost use Rattle.std.specs.List.Sorted.{IsPermutation, IsNonDecreasingBy};
ghost use Rattle.owner_kinds.specs.KindShelf.{table_of};
ghost use Rattle.owner_items.specs.Gathered.{IsInOrder, rank, entry_with, NoneOf, IsNewestOf};
ghost use Rattle.owner_items.specs.ItemList.{is_of};
ghost use Rattle.owner_items.specs.Newest.{FindsNewest};

use crate::entry::Entry;
use crate::ranking::rank_of;
use owner_kinds::{ExtKind, KindShelf};
use pgs_step::{Item, KindId, Phase};

/// Drops the dead entries.
pub(crate) fn keep_live(entries: &mut Vec<Entry>)
    ensures items { entries.new.items ≡ filter (λ entry. entry.live) entries.old.items }
    ensures len { vec_len entries.new ≤ vec_len entries.old }
    ensures capacity { vec_capacity entries.new ≡ vec_capacity entries.old }
{
    entries.retain(|entry| entry.live);
}

/// Appends the items.
pub(crate) fn append_items(entries: &mut Vec<Entry>, items: &[Item])
    requires { vec_len entries.old + length items.now ≤ vec_capacity entries.old }
    ensures items { entries.new.items ≡ entries.old.items ++ map entry_with items.now }
    ensures capacity { vec_capacity entries.new ≡ vec_capacity entries.old }
{
    for item in items {
        entries.push_reserved(Entry {
            item: *item,
            older: None,
            live: true,
        });
    }
}

/// Sorts the entries so that what the phase releases first comes last.
pub(crate) fn sort_for_release<K: ExtKind>(
    entries: &mut Vec<Entry>,
    kinds: &KindShelf<K>,
    phase: Phase,
)
    requires { All (λ entry. entry.live ≡ true) entries.old.items }
    ensures moved { IsPermutation entries.old.items entries.new.items }
    ensures in_order { IsInOrder (rank (table_of kinds.now) phase) (reverse entries.new.items) }
    ensures len { vec_len entries.new ≡ vec_len entries.old }
    ensures capacity { vec_capacity entries.new ≡ vec_capacity entries.old }
{
    entries.sort_unstable_by_key(|entry| (rank_of(&entry.item, kinds, phase), entry.item.serial));
}

/// Sorts the entries by their serials.
pub(crate) fn sort_by_serial(entries: &mut Vec<Entry>)
    ensures moved { IsPermutation entries.old.items entries.new.items }
    ensures rising { IsNonDecreasingBy (λ entry. entry.item.serial) entries.new.items }
    ensures len { vec_len entries.new ≡ vec_len entries.old }
    ensures capacity { vec_capacity entries.new ≡ vec_capacity entries.old }
{
    entries.sort_unstable_by_key(|entry| entry.item.serial);
}

/// Whether an item is of the phase.
pub(crate) fn has_item<K: ExtKind>(items: &[Item], kinds: &KindShelf<K>, phase: Phase) -> bool
    ensures none { result ≡ false → All (λ item. rank (table_of kinds.now) phase item ≡ 0) items.now }
    ensures some { result ≡ true → All (λ item. rank (table_of kinds.now) phase item ≡ 0) items.now → ⊥ }
{
    for item in items {
        if rank_of(item, kinds, phase) != 0 {
            return true;
        }
    }
    false
}

/// Whether the item of a live entry is of the phase.
pub(crate) fn has_entry<K: ExtKind>(entries: &[Entry], kinds: &KindShelf<K>, phase: Phase) -> bool
    ensures none { result ≡ false → All (λ entry. entry.live ≡ true → rank (table_of kinds.now) phase entry.item ≡ 0) entries.now }
    ensures some { result ≡ true → All (λ entry. entry.live ≡ true → rank (table_of kinds.now) phase entry.item ≡ 0) entries.now → ⊥ }
{
    for entry in entries {
        if entry.live && rank_of(&entry.item, kinds, phase) != 0 {
            return true;
        }
    }
    false
}

/// The place of the entry of this kind and key whose item is the newest.
pub(crate) fn newest_entry(entries: &[Entry], kind: KindId, key: u32) -> Option<usize>
    ensures { MatchOption result (NoneOf (is_of kind key) entries.now) (IsNewestOf (is_of kind key) entries.now) }
{
    let mut newest = None;
    let mut serial = 0;
    for (place, entry) in entries.iter().enumerate() {
        if entry.item.kind.0 == kind.0 && entry.item.key == key && entry.item.serial >= serial {
            newest = Some(place);
            serial = entry.item.serial;
        }
    }
    newest
}

/// The place of the newest item of this kind and key.
pub(crate) fn newest_of(items: &[Item], kind: KindId, key: u32) -> Option<usize>
    ensures { FindsNewest (is_of kind key) items.now result }
{
    for place in (0..items.len()).rev() {
        if is_item_of(&items[place], kind, key) {
            return Some(place);
        }
    }
    None
}

fn is_item_of(item: &Item, kind: KindId, key: u32) -> bool
    ensures { result ≡ is_of kind key item.now }
{
    item.kind.0 == kind.0 && item.key == key
}
