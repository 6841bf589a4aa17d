//! The lines of a report on memory contexts: PostgreSQL's `MemoryContextStats`.
#![tactic(auto)]

ghost use Rattle.std.specs.Prelude.{◌≡◌, min};
ghost use Rattle.pgs_step.specs.declared.events.What.TheVariants.{ContextStats, GrandTotal};
ghost use Rattle.context_report.specs.Lines.{counters_of, added, capped, sum_of};

use chunk_header::Stats;
use pgs_step::{CtxId, Depth, MemoryCounters, Name, What};

/// What the contexts of a report have together: PostgreSQL's `MemoryContextCounters` of `grand_totals`.
#[derive(Clone, Copy, PartialEq, Eq, Debug)]
pub struct Total {
    /// The bytes of all blocks.
    pub total: u64,
    /// How many blocks.
    pub blocks: u64,
    /// The bytes that are free in blocks.
    pub free: u64,
    /// How many free chunks.
    pub chunks: u64,
}

/// The line of a context that stands so many levels below the topmost one, of which the line keeps at most 100:
/// `MemoryContextStatsPrint`.
pub fn line(depth: u32, id: CtxId, name: &Name, stats: &Stats) -> What
    ensures { result ≡ ContextStats (min depth 100) id.number name.now (counters_of stats.now) }
{
    What::ContextStats {
        depth: Depth::new(depth),
        context: id.number,
        name: *name,
        counters: MemoryCounters {
            total: stats.total,
            blocks: stats.blocks,
            free: stats.free,
            chunks: stats.chunks,
        },
    }
}

impl Total {
    /// No context yet.
    pub fn new() -> Total
        ensures { result ≡ record { total = 0; blocks = 0; free = 0; chunks = 0 } }
    {
        Total {
            total: 0,
            blocks: 0,
            free: 0,
            chunks: 0,
        }
    }

    /// Adds what one more context has. Each sum stands still at the end of its type.
    pub fn add(&mut self, stats: &Stats)
        ensures { self.new ≡ capped (added self.old stats.now) }
    {
        self.total = self.total.saturating_add(stats.total);
        self.blocks = self.blocks.saturating_add(stats.blocks);
        self.free = self.free.saturating_add(stats.free);
        self.chunks = self.chunks.saturating_add(stats.chunks);
    }

    /// The last line of the report.
    pub fn last(self) -> What
        ensures { result ≡ GrandTotal (sum_of self) }
    {
        What::GrandTotal(MemoryCounters {
            total: self.total,
            blocks: self.blocks,
            free: self.free,
            chunks: self.chunks,
        })
    }
}
