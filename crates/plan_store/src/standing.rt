//! The plans that stand, by their numbers.
ghost use Rattle.std.specs.Prelude.{◌≡◌, ◌<◌, ◌≤◌, [], ◌∷◌, ◌++◌, nat_eq, length, Some, None, IsSome, OnOk};
ghost use Rattle.std.specs.Map.{lookup, set_value, remove_entry};

use crate::making_order::MakingOrder;
use crate::plan::Plan;
use std::alloc::{AllocError, Global};
use std::collections::HashMap;
use std::marker::Model;

/// The plans that stand. A plan is found by its number's hash. The order in which they were made stands in the clauses
/// alone, since nothing asks for it.
#[derive(Drop)]
pub struct Standing {
    plans: HashMap<u32, Plan>,
    order: MakingOrder,
}

impl Model for Standing {
    ghost use Rattle.std.specs.HashMap.{spare};
    ghost use Rattle.plan_store.specs.Kept.{KeptPlans, IsKept};
    ghost use Rattle.plan_store.specs.Code.{kept_code};

    ghost Value = { KeptPlans };

    ghost coded = { kept_code };

    ghost view = { λ s. record { plans = s.order.plans; room = spare s.plans } };

    ghost invariant = { λ s. IsKept s.plans.entries s.order.plans };
}

impl Standing {
    /// No plan.
    pub fn new(alloc: Global) -> Standing
        ensures { result.plans ≡ [] }
    {
        Standing {
            plans: HashMap::new(alloc),
            order: MakingOrder::none(),
        }
    }

    /// How many plans stand.
    pub fn len(&self) -> usize
        ensures { result ≡ length self.now.plans }
    {
        self.plans.len()
    }

    /// The plan of a number.
    #[inline(always)]
    pub fn get(&self, number: u32) -> Option<Plan>
        ensures { result ≡ lookup (nat_eq number) self.now.plans }
    {
        self.plans.get(&number).copied()
    }

    /// Makes room for one more plan. It fails for want of memory alone.
    pub fn reserve(&mut self) -> Result<(), AllocError>
        ensures plans { self.new.plans ≡ self.old.plans }
        ensures room { OnOk result (0 < self.new.room) }
        ensures more { self.old.room ≤ self.new.room }
    {
        self.plans.reserve(1)
    }

    /// Puts a plan of a new number behind the others, in room that was made.
    pub fn push(&mut self, number: u32, plan: Plan)
        requires room { 0 < self.old.room }
        requires fresh { lookup (nat_eq number) self.old.plans ≡ None }
        ensures { self.new.plans ≡ self.old.plans ++ (number, plan) ∷ [] }
    {
        let order = self.order.with(number, &plan);
        let _ = self.plans.insert(number, plan);
        self.order = order;
    }

    /// Writes the plan of a number.
    pub fn set(&mut self, number: u32, plan: Plan)
        requires { IsSome (lookup (nat_eq number) self.old.plans) }
        ensures plans { self.new.plans ≡ set_value (nat_eq number) self.old.plans plan }
        ensures room { self.new.room ≡ self.old.room }
    {
        let order = self.order.changed(number, &plan);
        if let Some(kept) = self.plans.get_mut(&number) {
            *kept = plan;
        }
        self.order = order;
    }

    /// Takes the plan of a number out.
    pub fn remove(&mut self, number: u32)
        ensures plans { self.new.plans ≡ remove_entry (nat_eq number) self.old.plans }
        ensures room { self.old.room ≤ self.new.room }
    {
        let order = self.order.without(number);
        let _ = self.plans.remove(&number);
        self.order = order;
    }
}
