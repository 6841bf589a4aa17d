//! The report on the contexts of a tree.
ghost use Rattle.std.specs.Prelude.{◌≡◌, ◌∷◌, [], min};
ghost use Rattle.addr_space.specs.Space.{Space};
ghost use Rattle.forest.specs.Forest.{mapped};
ghost use Rattle.any_ctx.specs.Ledgers.{stats};
ghost use Rattle.any_ctx.specs.Contexts.{ledger};
ghost use Rattle.context_report.specs.Lines.{line_of, added, capped};
ghost use Rattle.context_rules.specs.Reports as reports;
ghost use Rattle.context_node.specs.State.{context_of};

use context_node::Node;
use context_report::{Total, line};
use forest::{LinkedForest, NodeId, Visit};
use pgs_step::{CtxId, Emit};
use reset_callbacks::ResetHook;

/// Says what each context holds, before those below it, and then what all hold together. It takes no memory, however
/// deep the tree is.
pub fn report_all<H: ResetHook, E: Emit>(nodes: &LinkedForest<Node<H>>, out: &mut E)
    ensures { (s : Space) → E.emits out.old (reports.report (mapped (context_of s) nodes.now.forest)) out.new }
{
    let mut total = Total::new();
    let mut walk = nodes.preorder();
    while let Some(visit) = walk.next() {
        report_one(&visit, &mut total, out);
    }
    out.emit(total.last());
}

/// Says what a context holds, and adds that to the total.
fn report_one<H: ResetHook, E: Emit>(visit: &Visit<'_, Node<H>>, total: &mut Total, out: &mut E)
    ensures total { total.new ≡ capped (added total.old (stats (ledger visit.now.value.now.memory))) }
    ensures emits { E.emits out.old (line_of visit.now.depth visit.now.id.number visit.now.value.now.name (stats (ledger visit.now.value.now.memory)) ∷ []) out.new }
{
    let node = visit.value;
    let stats = node.stats();
    let context = context_at(visit.id);
    out.emit(line(levels(visit.depth), context, &node.name(), &stats));
    total.add(&stats);
}

/// A depth as a line takes it, which keeps no more than 100 levels.
fn levels(depth: usize) -> u32
    ensures { min result 100 ≡ min depth 100 }
{
    u32::try_from(depth).unwrap_or(u32::MAX)
}

/// The context that lies at a node.
pub fn context_at(id: NodeId) -> CtxId
    ensures { result ≡ record { number = id.number; slot = id.slot } }
{
    CtxId {
        number: id.number,
        slot: id.slot,
    }
}
