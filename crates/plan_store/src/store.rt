//! The plans of a session.
ghost use Rattle.std.specs.Prelude.{◌≡◌, ◌≢◌, ◌↔◌, ◌<◌, ◌≤◌, ◌+◌, ◌-◌, ◌^◌, ◌==◌, ◌&&◌, if◌then◌else◌, ℕ, true, false, List, [], ◌∷◌, ◌++◌, nat_eq, length, not, IsTrue, IsOk, IsErrOf, IsOkUnless, is_some, IsSome, IfSome, IsSomeAnd, MatchOption, IfOk, IfNone, OnSome, OnOk, OnErr, Some, None};
ghost use Rattle.std.specs.Map.{lookup, set_value, remove_entry};
ghost use Rattle.std.specs.List.{list_any};
ghost use Rattle.std.specs.Set.{distinct_count};
ghost use Rattle.plan_store.specs.declared.plan.Plan.{Plan};
ghost use Rattle.plan_store.specs.Plans.{Plans, plan_of, RefersOneMore, RefersOneLess, RefersAlike, is_usable, references, ArePlans};

use crate::plan::{Plan, PlanError};
use crate::standing::Standing;
use pgs_step::CtxId;
use std::alloc::Global;
use std::marker::Model;

/// How many plans can stand at once.
pub const PLANS: usize = 1024;

/// The plans of a session: PostgreSQL's saved plans, with how often each is referenced.
///
/// A plan is made in two steps, so that its memory context can be made between them: `reserve` takes the room,
/// and `make`, which can't fail, puts the plan there. A plan that is discarded while references to it are held
/// stays until the last of them is given back. Contracts see the plans in the order in which they were made,
/// each behind its number, and the number that was reserved last.
#[derive(Drop)]
pub struct PlanStore {
    plans: Standing,
    reserved: Option<u32>,
}

impl Model for PlanStore {
    ghost use Rattle.std.specs.Prelude.{◌<◌, IfSome};
    ghost use Rattle.plan_store.specs.Plans.{Plans, ArePlans};

    ghost Value = { Plans };

    ghost view = { λ s. record { standing = s.plans.plans; reserved = s.reserved } };

    ghost invariant = { λ s. ArePlans (record { standing = s.plans.plans; reserved = s.reserved }) × IfSome s.reserved (λ _. 0 < s.plans.room) };
}

impl PlanStore {
    /// No plan stands.
    pub fn new(alloc: Global) -> PlanStore
        ensures { result ≡ record { standing = []; reserved = None } }
    {
        PlanStore {
            plans: Standing::new(alloc),
            reserved: None,
        }
    }

    /// Takes the room for a plan of that number, in place of what was reserved before.
    ///
    /// `Taken` comes where a plan of that number stands, discarded or not; `TooMany` where 1,024 others stand;
    /// `Memory` where memory was refused. Nothing else is taken, so that the number need not be made.
    pub fn reserve(&mut self, plan: u32) -> Result<(), PlanError>
        ensures taken { IsErrOf result PlanError.Taken ↔ IsSome (plan_of self.old plan) }
        ensures too_many { IsErrOf result PlanError.TooMany ↔ ((plan_of self.old plan ≡ None) × (PLANS ≤ length self.old.standing)) }
        ensures wanted { plan_of self.old plan ≡ None → length self.old.standing < PLANS → IsOkUnless result PlanError.Memory }
        ensures reserved { OnOk result (self.new ≡ record self.old { reserved = Some plan }) }
        ensures refused { OnErr result (self.new ≡ self.old) }
    {
        if self.stands(plan) {
            return Err(PlanError::Taken);
        }
        if self.plans.len() >= PLANS {
            return Err(PlanError::TooMany);
        }
        self.plans.reserve()?;
        self.reserved = Some(plan);
        Ok(())
    }

    /// Makes the plan for which room is reserved. It takes no memory.
    pub fn make(&mut self, plan: u32, context: CtxId)
        requires { self.old.reserved ≡ Some plan }
        ensures made { self.new.standing ≡ self.old.standing ++ (plan, record { context = context; discarded = false; references = 0 }) ∷ [] }
        ensures counts { RefersAlike self.old self.new }
        ensures used { self.new.reserved ≡ None }
    {
        let made = Plan {
            context,
            discarded: false,
            references: 0,
        };
        self.plans.push(plan, made);
        self.reserved = None;
    }

    /// Whether a plan of that number stands, discarded or not.
    pub fn stands(&self, plan: u32) -> bool
        ensures { IsTrue result ↔ IsSome (plan_of self.now plan) }
    {
        self.plans.get(plan).is_some()
    }

    /// Whether a plan of that number stands that isn't discarded.
    pub fn usable(&self, plan: u32) -> bool
        ensures { result ≡ is_usable self.now plan }
    {
        match self.plans.get(plan) {
            Some(kept) => !kept.discarded,
            None => false,
        }
    }

    /// Takes one more reference to a plan.
    ///
    /// `NoPlan` comes exactly where there is no plan of that number or it is discarded.
    pub fn add_ref(&mut self, plan: u32) -> Result<(), PlanError>
        requires room { references self.old < 2 ^ 62 }
        ensures no_plan { IsErrOf result PlanError.NoPlan ↔ (is_usable self.old plan ≡ false) }
        ensures wanted { IsTrue (is_usable self.old plan) → IsOkUnless result PlanError.Memory }
        ensures added { OnOk result (IfSome (plan_of self.old plan) (λ kept. self.new.standing ≡ set_value (nat_eq plan) self.old.standing (record kept { references = kept.references + 1 }))) }
        ensures counts { OnOk result (RefersOneMore self.old self.new plan) }
        ensures total { OnOk result (references self.new ≡ references self.old + 1) }
        ensures reserved { self.new.reserved ≡ self.old.reserved }
        ensures refused { OnErr result (self.new ≡ self.old) }
    {
        let Some(kept) = self.plans.get(plan) else {
            return Err(PlanError::NoPlan);
        };
        if kept.discarded {
            return Err(PlanError::NoPlan);
        }
        let changed = Plan {
            references: kept.references + 1,
            ..kept
        };
        self.plans.set(plan, changed);
        Ok(())
    }

    /// Gives a reference to a plan back. Where it was the last one to a discarded plan, the plan is gone, and the
    /// answer is its context, which has to go too.
    ///
    /// `NoPlan` comes exactly where there is no plan of that number, and `NotHeld` exactly where there is one and
    /// no reference to it is held.
    pub fn drop_ref(&mut self, plan: u32) -> Result<Option<CtxId>, PlanError>
        ensures no_plan { IsErrOf result PlanError.NoPlan ↔ (plan_of self.old plan ≡ None) }
        ensures not_held { IsErrOf result PlanError.NotHeld ↔ IsSomeAnd (plan_of self.old plan) (λ kept. kept.references ≡ 0) }
        ensures held { IsSomeAnd (plan_of self.old plan) (λ kept. 1 ≤ kept.references) → IsOk result }
        ensures context { IfOk result (λ context. IfSome (plan_of self.old plan) (λ kept. context ≡ (if kept.discarded && (kept.references == 1) then Some kept.context else None))) }
        ensures gone { IfOk result (λ context. OnSome context (self.new.standing ≡ remove_entry (nat_eq plan) self.old.standing)) }
        ensures stays { IfOk result (λ context. IfNone context (IfSome (plan_of self.old plan) (λ kept. self.new.standing ≡ set_value (nat_eq plan) self.old.standing (record kept { references = kept.references - 1 })))) }
        ensures counts { OnOk result (RefersOneLess self.old self.new plan) }
        ensures total { OnOk result (references self.new + 1 ≡ references self.old) }
        ensures reserved { self.new.reserved ≡ self.old.reserved }
        ensures refused { OnErr result (self.new ≡ self.old) }
    {
        let Some(kept) = self.plans.get(plan) else {
            return Err(PlanError::NoPlan);
        };
        if kept.references == 0 {
            return Err(PlanError::NotHeld);
        }
        let left = kept.references - 1;
        if kept.discarded && left == 0 {
            self.plans.remove(plan);
            return Ok(Some(kept.context));
        }
        let changed = Plan {
            references: left,
            ..kept
        };
        self.plans.set(plan, changed);
        Ok(None)
    }

    /// Discards a plan: it takes no new reference. Where no reference to it is held, the plan is gone, and the
    /// answer is its context, which has to go too.
    ///
    /// `NoPlan` comes exactly where there is no plan of that number or it is discarded already.
    pub fn discard(&mut self, plan: u32) -> Result<Option<CtxId>, PlanError>
        ensures no_plan { IsErrOf result PlanError.NoPlan ↔ (is_usable self.old plan ≡ false) }
        ensures usable { IsTrue (is_usable self.old plan) → IsOk result }
        ensures context { IfOk result (λ context. IfSome (plan_of self.old plan) (λ kept. context ≡ (if kept.references == 0 then Some kept.context else None))) }
        ensures gone { IfOk result (λ context. OnSome context (self.new.standing ≡ remove_entry (nat_eq plan) self.old.standing)) }
        ensures stays { IfOk result (λ context. IfNone context (IfSome (plan_of self.old plan) (λ kept. self.new.standing ≡ set_value (nat_eq plan) self.old.standing (record kept { discarded = true })))) }
        ensures counts { RefersAlike self.old self.new }
        ensures total { references self.new ≡ references self.old }
        ensures reserved { self.new.reserved ≡ self.old.reserved }
        ensures refused { OnErr result (self.new ≡ self.old) }
    {
        let Some(kept) = self.plans.get(plan) else {
            return Err(PlanError::NoPlan);
        };
        if kept.discarded {
            return Err(PlanError::NoPlan);
        }
        if kept.references == 0 {
            self.plans.remove(plan);
            return Ok(Some(kept.context));
        }
        let changed = Plan {
            discarded: true,
            ..kept
        };
        self.plans.set(plan, changed);
        Ok(None)
    }

    /// Facts of every store, for proofs. It does nothing.
    pub fn laws(&self)
        ensures sound { ArePlans self.now }
        // of any list of the numbers of the plans that stand, the number of different ones
        ensures different { (numbers : List ℕ) → ((q : ℕ) → list_any (nat_eq q) numbers ≡ is_some (plan_of self.now q)) → length self.now.standing ≡ distinct_count nat_eq numbers }
    {
        let _ = &self.plans;
    }

    /// How many plans stand, discarded or not.
    pub fn count(&self) -> u64
        ensures standing { result ≡ length self.now.standing }
        ensures sound { ArePlans self.now }
    {
        self.plans.len() as u64
    }
}
