//! The release of one owner's items in a phase.
ghost use Rattle.std.specs.Prelude.{◌≡◌, ℕ, ◌+◌, ◌<◌, ◌≤◌, true, false, List, [], ◌∷◌, All};
ghost use Rattle.pgs_step.specs.declared.ids.KindId.{KindId as Kind};
ghost use Rattle.pgs_step.specs.declared.events.What.{What};
ghost use Rattle.owner_kinds.specs.KindTable.{IsKind};
ghost use Rattle.owner_items.specs.ItemList.{uses};
ghost use Rattle.owner_items.specs.Next.{release_order, items_left};
ghost use Rattle.owner_core.specs.Steps.{release_of, releases_of};

use crate::table::Release;
use owner_items::Items;
use pgs_step::{Emit, Item, Phase, What};

/// Releases an owner's items of a phase, in their order: at once where it has none.
#[inline(always)]
pub fn release_items<R: Release, E: Emit>(
    items: &mut Items,
    owner: u64,
    phase: Phase,
    commit: bool,
    table: &mut R,
    out: &mut E,
)
    requires fit { R.IsFit table.old }
    requires kinds { All (λ item. IsKind (R.kind_table table.old) item.kind) items.old.items }
    requires counted { (kind : Kind) (key : ℕ) → uses kind key items.old.items ≤ R.counted table.old kind key }
    ensures items { items.new.items ≡ items_left (R.kind_table table.old) phase items.old.items }
    ensures steps { (events : List What) × R.does table.old (releases_of commit owner (release_order (R.kind_table table.old) phase items.old.items)) events table.new × E.emits out.old events out.new }
    ensures fit { R.IsFit table.new }
    ensures kinds { R.kind_table table.new ≡ R.kind_table table.old }
    ensures counted { (kind : Kind) (key : ℕ) → R.counted table.new kind key + uses kind key items.old.items ≡ R.counted table.old kind key + uses kind key items.new.items }
{
    if items.len() == 0 {
        return;
    }
    release_each(items, owner, phase, commit, table, out);
}

/// Releases an owner's items of a phase, one behind the other.
#[inline(never)]
fn release_each<R: Release, E: Emit>(
    items: &mut Items,
    owner: u64,
    phase: Phase,
    commit: bool,
    table: &mut R,
    out: &mut E,
)
    requires fit { R.IsFit table.old }
    requires kinds { All (λ item. IsKind (R.kind_table table.old) item.kind) items.old.items }
    requires counted { (kind : Kind) (key : ℕ) → uses kind key items.old.items ≤ R.counted table.old kind key }
    ensures items { items.new.items ≡ items_left (R.kind_table table.old) phase items.old.items }
    ensures steps { (events : List What) × R.does table.old (releases_of commit owner (release_order (R.kind_table table.old) phase items.old.items)) events table.new × E.emits out.old events out.new }
    ensures fit { R.IsFit table.new }
    ensures kinds { R.kind_table table.new ≡ R.kind_table table.old }
    ensures counted { (kind : Kind) (key : ℕ) → R.counted table.new kind key + uses kind key items.old.items ≡ R.counted table.old kind key + uses kind key items.new.items }
{
    while let Some(item) = items.take_next(table.kinds(), phase) {
        release_item(item, owner, commit, table, out);
    }
}

fn release_item<R: Release, E: Emit>(
    item: Item,
    owner: u64,
    commit: bool,
    table: &mut R,
    out: &mut E,
)
    requires fit { R.IsFit table.old }
    requires counted { 0 < R.counted table.old item.kind item.key }
    ensures steps { (events : List What) × R.does table.old (release_of commit owner item) events table.new × E.emits out.old events out.new }
    ensures fit { R.IsFit table.new }
    ensures kinds { R.kind_table table.new ≡ R.kind_table table.old }
    ensures counted { (kind : Kind) (key : ℕ) → R.counted table.new kind key + uses kind key (item ∷ []) ≡ R.counted table.old kind key }
{
    if commit {
        out.emit(What::NotClosed { item, owner });
        give_back_item(item, owner, table, out);
    } else {
        give_back_item(item, owner, table, out);
    }
}

/// Says the release of an item, and then gives it back.
fn give_back_item<R: Release, E: Emit>(item: Item, owner: u64, table: &mut R, out: &mut E)
    requires fit { R.IsFit table.old }
    requires counted { 0 < R.counted table.old item.kind item.key }
    ensures steps { (events : List What) × R.does table.old (release_of false owner item) events table.new × E.emits out.old events out.new }
    ensures fit { R.IsFit table.new }
    ensures kinds { R.kind_table table.new ≡ R.kind_table table.old }
    ensures counted { (kind : Kind) (key : ℕ) → R.counted table.new kind key + uses kind key (item ∷ []) ≡ R.counted table.old kind key }
{
    out.emit(What::Release { item, owner });
    table.give_back(item, out);
}
