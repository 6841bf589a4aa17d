//! What is kept of a plan, and why a call on plans is refused.
use pgs_step::CtxId;
use std::alloc::AllocError;
use thiserror::Error;

/// What a store keeps of a plan: PostgreSQL's `CachedPlan`.
#[derive(Clone, Copy, Debug, PartialEq, Eq)]
pub struct Plan {
    /// The plan's memory context, which goes with the plan.
    pub context: CtxId,
    /// The plan takes no new reference, and goes with its last one.
    pub discarded: bool,
    /// How many references to the plan are held.
    pub references: u64,
}

/// Why a call on plans was refused.
#[derive(Clone, Copy, Debug, PartialEq, Eq, Error)]
pub enum PlanError {
    /// A plan of that number stands, discarded or not.
    #[error("the plan is there")]
    Taken,
    /// 1,024 plans stand.
    #[error("too many plans")]
    TooMany,
    /// There is no plan of that number, or it is discarded.
    #[error("no such plan")]
    NoPlan,
    /// No reference to the plan is held.
    #[error("the reference is not held")]
    NotHeld,
    /// Memory was refused.
    #[error("no memory")]
    Memory,
}

impl From<AllocError> for PlanError {
    ghost use Rattle.plan_store.specs.declared.plan.PlanError.TheVariants.{Memory};
    ghost use Rattle.std.specs.Prelude.{◌≡◌};

    ghost from_gives = { λ _ e. e ≡ Memory };

    fn from(_refused: AllocError) -> PlanError {
        PlanError::Memory
    }
}
