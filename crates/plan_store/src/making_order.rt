//! The order in which the plans of a store were made.
ghost use Rattle.std.specs.Prelude.{◌≡◌, ℕ, List, [], ◌∷◌, ◌++◌, nat_eq};
ghost use Rattle.std.specs.Map.{set_value, remove_entry};
ghost use base.Fml.{ftrue};
ghost use Rattle.plan_store.specs.declared.plan.Plan.{Plan};
ghost use Rattle.plan_store.specs.Code.{plans_code};

use crate::plan::Plan;
use std::marker::{Model, PhantomData};

/// How the plans are read off a value.
pub trait Tells<X> {
    ghost told: { X → List (ℕ × Plan) };
}

/// The plans that stand, each behind its number, in the order in which they were made. It takes no memory and owns
/// none: it says what the clauses of its owner tell.
pub struct MakingOrder {
    marker: PhantomData<()>,
    pub ghost plans: { List (ℕ × Plan) } by { plans_code },
}

impl Model for MakingOrder {
    ghost also_owns = { λ _. ftrue };
}

impl MakingOrder {
    #[inline(always)]
    fn of<X, M: Tells<X>>(x: &X) -> MakingOrder
        ensures { result.plans ≡ M.told x.now }
    {
        let _ = x;
        MakingOrder {
            marker: PhantomData,
        }
    }
}

impl Drop for MakingOrder {
    #[inline(always)]
    fn drop(self) {
        let Self { marker: _ } = self;
    }
}

// No plan.
#[derive(Drop)]
struct Nothing {
    none: bool,
}

// One more plan, behind the others.
#[derive(Drop)]
struct Made<'a> {
    order: &'a MakingOrder,
    number: u32,
    plan: &'a Plan,
}

// The plan of a number is another one.
#[derive(Drop)]
struct Changed<'a> {
    order: &'a MakingOrder,
    number: u32,
    plan: &'a Plan,
}

// The plan of a number goes.
#[derive(Drop)]
struct Removed<'a> {
    order: &'a MakingOrder,
    number: u32,
}

struct Rule;

impl Tells<Nothing> for Rule {
    ghost told = { λ _. [] };
}

impl<'a> Tells<Made<'a>> for Rule {
    ghost told = { λ m. m.order.now.plans ++ (m.number, m.plan.now) ∷ [] };
}

impl<'a> Tells<Changed<'a>> for Rule {
    ghost told = { λ c. set_value (nat_eq c.number) c.order.now.plans c.plan.now };
}

impl<'a> Tells<Removed<'a>> for Rule {
    ghost told = { λ r. remove_entry (nat_eq r.number) r.order.now.plans };
}

impl MakingOrder {
    /// No plan.
    #[inline(always)]
    pub fn none() -> MakingOrder
        ensures { result.plans ≡ [] }
    {
        MakingOrder::of::<Nothing, Rule>(&Nothing { none: true })
    }

    /// With one more plan, behind the others.
    #[inline(always)]
    pub fn with(&self, number: u32, plan: &Plan) -> MakingOrder
        ensures { result.plans ≡ self.now.plans ++ (number, plan.now) ∷ [] }
    {
        let order = self;
        MakingOrder::of::<Made, Rule>(&Made {
            order,
            number,
            plan,
        })
    }

    /// With another plan of a number.
    #[inline(always)]
    pub fn changed(&self, number: u32, plan: &Plan) -> MakingOrder
        ensures { result.plans ≡ set_value (nat_eq number) self.now.plans plan.now }
    {
        let order = self;
        MakingOrder::of::<Changed, Rule>(&Changed {
            order,
            number,
            plan,
        })
    }

    /// Without the plan of a number.
    #[inline(always)]
    pub fn without(&self, number: u32) -> MakingOrder
        ensures { result.plans ≡ remove_entry (nat_eq number) self.now.plans }
    {
        let order = self;
        MakingOrder::of::<Removed, Rule>(&Removed { order, number })
    }
}
