//! The lines of a report, and its last one.
use chunk_header::Stats;
use context_report::{Total, line};
use pgs_step::{CtxId, Depth, MemoryCounters, Name, What};

/// What a new default context has, and one more with a chunk of 8,000 bytes.
const NEW: Stats = Stats {
    total: 8192,
    blocks: 1,
    free: 7952,
    chunks: 0,
};

const USED: Stats = Stats {
    total: 24_576,
    blocks: 2,
    free: 16_096,
    chunks: 7,
};

#[test]
fn lines_keep_at_most_100_levels(rt: HostRuntime) {
    let name = Name::new(b"w").ok_or("no name").expect(&rt, "it is served");
    let id = CtxId { number: 7, slot: 3 };
    for (depth, levels) in [(0, 0), (1, 1), (100, 100), (101, 100), (4_294_967_295, 100)] {
        let want = What::ContextStats {
            depth: Depth::new(levels),
            context: 7,
            name,
            counters: MemoryCounters {
                total: 24_576,
                blocks: 2,
                free: 16_096,
                chunks: 7,
            },
        };
        assert!(rt; line(depth, id, &name, &USED) == want);
    }
}

#[test]
fn the_last_line_sums(rt: HostRuntime) {
    let mut total = Total::new();
    total.add(&NEW);
    total.add(&USED);
    let want = What::GrandTotal(MemoryCounters {
        total: 32_768,
        blocks: 3,
        free: 24_048,
        chunks: 7,
    });
    assert!(rt; total.last() == want);
}
