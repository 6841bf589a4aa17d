ghost use Rattle.std.specs.Prelude.{◌≡◌, ◌≤◌, true};
ghost use Rattle.owner_kinds.specs.KindShelf.{table_of};
ghost use Rattle.owner_items.specs.Next.{is_of_phase, priority};
ghost use Rattle.owner_items.specs.Gathered.{rank};
ghost use Rattle.owner_items.specs.declared.ranking.TheConstants.{LAST_PRIORITY};

use arrayvec::ArrayVec;
use owner_kinds::{ExtKind, KindRow, KindShelf};
use pgs_step::{Item, Phase};

/// No kind has a priority over this: priorities have 32 bits.
pub(crate) const LAST_PRIORITY: u64 = 8_589_934_592;

/// In which order gathered items are: that of this phase's release, with these rows of the extension kinds.
#[derive(Drop)]
pub(crate) struct Order {
    pub phase: Phase,
    pub rows: ArrayVec<KindRow, 16>,
}

impl Order {
    pub fn new<K: ExtKind>(kinds: &KindShelf<K>, phase: Phase) -> Order
        ensures phase { result.phase ≡ phase }
        ensures rows { result.rows.items ≡ (table_of kinds.now).rows }
    {
        let mut rows = ArrayVec::new();
        for row in kinds.rows() {
            rows.push(*row);
        }
        Order { phase, rows }
    }

    /// Whether it is the order of this phase's release now.
    pub fn is_for<K: ExtKind>(&self, kinds: &KindShelf<K>, phase: Phase) -> bool
        ensures phase { result ≡ true → self.now.phase ≡ phase }
        ensures rows { result ≡ true → self.now.rows.items ≡ (table_of kinds.now).rows }
        ensures kept { self.now.phase ≡ phase → self.now.rows.items ≡ (table_of kinds.now).rows → result ≡ true }
    {
        self.phase == phase && self.rows.as_slice() == kinds.rows()
    }
}

/// How late the item stands in the order of the phase's release, from its end; 0 for items of other phases.
pub(crate) fn rank_of<K: ExtKind>(item: &Item, kinds: &KindShelf<K>, phase: Phase) -> u64
    ensures rank { result ≡ rank (table_of kinds.now) phase item.now }
    ensures low { is_of_phase (table_of kinds.now) phase item.now ≡ true → priority (table_of kinds.now) item.now ≤ LAST_PRIORITY }
{
    let Some(row) = kinds.row(item.kind) else {
        return 0;
    };
    if row.phase != phase {
        return 0;
    }
    1 + (LAST_PRIORITY - row.priority as u64)
}
