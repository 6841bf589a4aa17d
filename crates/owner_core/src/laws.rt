//! What holds of the three phases of a release together.
ghost use Rattle.std.specs.Prelude.{◌≡◌, ◌≤◌, ◌↔◌, ◌⊎◌, ℕ, Bool, true, false, List, [], None};
ghost use Rattle.pgs_step.specs.declared.ids.KindId.{KindId as Kind};
ghost use Rattle.pgs_step.specs.declared.ids.Phase.TheVariants.{Locks};
ghost use Rattle.forest.specs.Forest.{Once, has, parent_of, is_above};
ghost use Rattle.owner_kinds.specs.KindTable.{KindTable, IsSound};
ghost use Rattle.owner_core.specs.Owners.{OwnerTree, AllAt, HoldsNothing, items_of, held, subtree_of};
ghost use Rattle.owner_core.specs.Phases.{HasKinds, all_released, may_lock_behind};
ghost use Rattle.owner_core.specs.Steps.{release_steps};

/// The laws of a whole release. A caller names it and cites a clause.
pub fn whole_release()
    // Behind all three phases the owner and all below it have no items, so it can be discarded.
    ensures nothing { (kinds : KindTable) (n : ℕ) (owners : OwnerTree) → IsSound kinds → AllAt (HasKinds kinds) n owners → AllAt HoldsNothing n (all_released kinds n owners) }
    ensures no_item { (kinds : KindTable) (n : ℕ) (owners : OwnerTree) → IsSound kinds → AllAt (HasKinds kinds) n owners → items_of n (all_released kinds n owners) ≡ [] }

    // What an owner and those below it hold is among what all owners hold.
    ensures below { (kind : Kind) (key n : ℕ) (owners : OwnerTree) → held kind key (subtree_of n owners) ≤ held kind key owners }

    // Behind the phase of locks neither the owner nor one below it holds locks, whichever did before.
    ensures no_lock { (kinds : KindTable) (commit top : Bool) (n m : ℕ) (owners : OwnerTree) → Once owners → has n owners ≡ true → ((top ≡ true) ↔ (parent_of n owners ≡ None)) → (m ≡ n) ⊎ (is_above n m owners ≡ true) → (before : Bool) → may_lock_behind m before (release_steps kinds Locks commit top n owners) ≡ false }
{}
