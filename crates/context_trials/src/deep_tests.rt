//! Trees of tens of thousands of contexts.
ghost use Rattle.std.specs.Prelude.{◌≡◌, ◌-◌, ◌≤◌};
ghost use Rattle.context_trials.specs.Standing.{Stands};

use crate::row_tests::transaction;
use crate::{At, Trial};
use any_ctx::CtxKind;
use context_node::own_name;
use context_rules::TreeError;
use pgs_step::{MemoryCounters, What};
use std::test::Fail;

/// How many of these events say that a context goes, as long as each says it of the one before the last.
fn falling(events: &[What], from: u64) -> u64 {
    let mut next = from;
    for event in events {
        if *event != What::Delete(next) {
            return from.saturating_sub(next);
        }
        next = next.saturating_sub(1);
    }
    from.saturating_sub(next)
}

/// Makes a chain of 50,000 contexts, the first of which is `w`.
fn chained(trial: &mut Trial) -> Result<(), TreeError>
    requires { Stands trial.old }
    ensures { Stands trial.new }
{
    let w = own_name(b"w");
    trial.create(At::Top, w, CtxKind::Small)?;
    trial.chain(At::Named(w), own_name(b"x"), 49_999)
}

#[test]
fn a_chain_of_fifty_thousand_is_reported_and_goes_from_below(rt: HostRuntime) -> Result<(), Fail> {
    let mut trial = transaction(rt.alloc(), 160_000)?;
    chained(&mut trial)?;
    assert_eq!(rt; (trial.count(), trial.held()), (50_006, 51_273_728));
    trial.report();
    let said = trial.events().len();
    assert_eq!(rt; said, 50_001 + 50_006 + 1);
    let total = MemoryCounters {
        total: 51_273_728,
        blocks: 50_006,
        free: 39_272_288,
        chunks: 0,
    };
    assert_eq!(rt; trial.events().last(), Some(&What::GrandTotal(total)));
    trial.delete(At::Named(own_name(b"w")))?;
    assert_eq!(rt; (trial.count(), trial.held()), (6, 73_728));
    let gone = trial.events().get(said..).unwrap_or(&[]);
    assert_eq!(rt; (gone.len(), falling(gone, 50_006)), (50_000, 50_000));
    Ok(())
}
