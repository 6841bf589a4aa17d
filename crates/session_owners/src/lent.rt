//! What a release gives items and locks back to: a session's tables and locks, where the contexts of its plans lie, and what the
//! run's sessions share of kinds, locks and pins.
ghost use Rattle.std.specs.Prelude.{◌≡◌, length, refl};
ghost use Rattle.lock_local.specs.Locks.{Agrees};
ghost use Rattle.owner_kinds.specs.KindShelf.{table_of};
ghost use Rattle.std.proofs.Common.{◌∙◌};
ghost use Rattle.session_owners.specs.Commons.{LocksBalance};
ghost use Rattle.session_owners.specs.Placing.{PlansFit};
ghost use Rattle.session_owners.specs.Tables.{lending_of, times_lent, ArePinsShared, PinsBalance, TablesDo};
ghost use Rattle.session_rules.specs.Limits.{shared_buffers};

use crate::{PlanContexts, Tables};
use lock_local::LockTable;
use lock_shared::SharedLocks;
use owner_core::Release;
use owner_kinds::{ExtKind, KindShelf};
use pgs_step::{Emit, Item, KindId, OwnerId};
use pin_table::SharedPins;

/// The tables and locks of a session and the contexts of its plans, and the extension kinds of the run and the locks and pins of
/// all sessions, for one release.
#[derive(Drop)]
pub(crate) struct Lent<'a, K: ExtKind, P: PlanContexts> {
    pub(crate) tables: &'a mut Tables,
    pub(crate) kinds: &'a mut KindShelf<K>,
    pub(crate) locks: &'a mut LockTable,
    pub(crate) shared: &'a mut SharedLocks,
    pub(crate) pins: &'a mut SharedPins,
    pub(crate) place: &'a mut P,
}

impl<'a, K: ExtKind, P: PlanContexts> Release for Lent<'a, K, P> {
    type Extension = K;

    ghost IsFit = { λ lent. (length lent.tables.now.pins ≡ shared_buffers) × Agrees lent.locks.now lent.shared.now × ArePinsShared lent.tables.now.pins lent.pins.now × PlansFit (P.MayGo lent.place.now) lent.tables.now.plans.standing };

    ghost counted = { λ lent. times_lent (lending_of lent.tables.now lent.kinds.now lent.locks.now.locks (P.contexts lent.place.now) (P.shelf lent.place.now)) };

    ghost kind_table = { λ lent. table_of lent.kinds.now };

    ghost does = { λ a steps events b. (b.tables.ghost_name ≡ a.tables.ghost_name) × (b.kinds.ghost_name ≡ a.kinds.ghost_name) × (b.locks.ghost_name ≡ a.locks.ghost_name) × (b.shared.ghost_name ≡ a.shared.ghost_name) × (b.pins.ghost_name ≡ a.pins.ghost_name) × (b.place.ghost_name ≡ a.place.ghost_name) × LocksBalance a.locks.now b.locks.now a.shared.now b.shared.now × PinsBalance a.tables.now.pins b.tables.now.pins a.pins.now b.pins.now × P.went a.place.now b.place.now × TablesDo (lending_of a.tables.now a.kinds.now a.locks.now.locks (P.contexts a.place.now) (P.shelf a.place.now)) steps events (lending_of b.tables.now b.kinds.now b.locks.now.locks (P.contexts b.place.now) (P.shelf b.place.now)) };

    fn kinds(&self) -> &KindShelf<K> {
        &self.kinds
    }

    fn give_back<E: Emit>(&mut self, item: Item, out: &mut E) {
        if item.kind.0 >= KindId::FIRST_EXTENSION {
            self.kinds.close(item.kind, item.key);
        } else {
            self.tables.give_back(item, self.pins, self.place, out);
        }
    }

    #[inline(never)]
    fn release_owner<E: Emit>(&mut self, owner: OwnerId, out: &mut E) {
        self.locks.release_owner(self.shared, owner, out);
    }

    #[inline(never)]
    fn pass_owner<E: Emit>(&mut self, from: OwnerId, to: OwnerId, out: &mut E) {
        self.locks.pass_owner(from, to, out);
    }

    #[inline(never)]
    fn release_all<E: Emit>(&mut self, top: OwnerId, out: &mut E) {
        self.locks.release_all(self.shared, top, out);
    }

    ghost use Rattle.session_owners.specs.LockLaws.{LocksBalance-nothing, LocksBalance-more};
    ghost use Rattle.session_owners.specs.TableLaws.{PinsBalance-nothing, PinsBalance-more, TablesDo-nothing, TablesDo-said, TablesDo-more};

    ghost does_nothing = { λ a. (refl, refl, refl, refl, refl, refl, LocksBalance-nothing a.locks.now a.shared.now, PinsBalance-nothing a.tables.now.pins a.pins.now, P.went_nothing a.place.now, TablesDo-nothing (lending_of a.tables.now a.kinds.now a.locks.now.locks (P.contexts a.place.now) (P.shelf a.place.now))) };

    ghost does_said = { λ a event. (refl, refl, refl, refl, refl, refl, LocksBalance-nothing a.locks.now a.shared.now, PinsBalance-nothing a.tables.now.pins a.pins.now, P.went_nothing a.place.now, TablesDo-said (lending_of a.tables.now a.kinds.now a.locks.now.locks (P.contexts a.place.now) (P.shelf a.place.now)) event) };

    ghost does_more = { λ a b c ss ts both xs ys all p q e f. (q.0 ∙ p.0, q.1 ∙ p.1, q.2 ∙ p.2, q.3 ∙ p.3, q.4 ∙ p.4, q.5 ∙ p.5, LocksBalance-more a.locks.now b.locks.now c.locks.now a.shared.now b.shared.now c.shared.now p.6 q.6, PinsBalance-more a.tables.now.pins b.tables.now.pins c.tables.now.pins a.pins.now b.pins.now c.pins.now p.7 q.7, P.went_more a.place.now b.place.now c.place.now p.8 q.8, TablesDo-more (lending_of a.tables.now a.kinds.now a.locks.now.locks (P.contexts a.place.now) (P.shelf a.place.now)) (lending_of b.tables.now b.kinds.now b.locks.now.locks (P.contexts b.place.now) (P.shelf b.place.now)) (lending_of c.tables.now c.kinds.now c.locks.now.locks (P.contexts c.place.now) (P.shelf c.place.now)) ss ts both xs ys all p.9 q.9 e f) };
}
