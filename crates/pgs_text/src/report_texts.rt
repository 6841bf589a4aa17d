//! The lines that count what contexts and sessions have.
ghost use Rattle.std.specs.Prelude.{◌≡◌, ◌+◌, ◌*◌, ◌≤◌, ◌++◌, length, replicate, codes, decimal};
ghost use Rattle.arrayvec.specs.ArrayVec.{array_vec_len};
ghost use Rattle.pgs_step.specs.Text.{blocks_text, counters_text, stat_text};

use crate::pieces::{put, put_both, put_counted, put_number, put_word};
use arrayvec::ArrayVec;
use pgs_step::{DEEPEST, Depth, MemoryCounters, Name, SessionCounts};

/// The spaces before the deepest line of a report.
static SPACES: [u8; 2 * DEEPEST as usize] = [b' '; 2 * DEEPEST as usize];

/// "cK NAME: T total in B blocks; F free (C chunks); U used", with two spaces before it for each level.
#[inline(never)]
pub fn put_context_stats<const N: usize>(
    out: &mut ArrayVec<u8, N>,
    depth: Depth,
    context: u64,
    name: &Name,
    counters: &MemoryCounters,
)
    requires { array_vec_len out.old + 450 ≤ N }
    ensures text { out.new.items ≡ out.old.items ++ (replicate (2 * depth) 32 ++ codes "c" ++ decimal context ++ codes " " ++ name.now ++ codes ": " ++ counters_text (codes " total") counters.now) }
    ensures short { array_vec_len out.new ≤ array_vec_len out.old + 450 }
{
    put_context(out, depth, context, name);
    put_word(out, b": ");
    put_counters(out, b" total", counters);
}

/// "Grand total: T bytes in B blocks; F free (C chunks); U used"
#[inline(never)]
pub fn put_grand_total<const N: usize>(out: &mut ArrayVec<u8, N>, counters: &MemoryCounters)
    requires { array_vec_len out.old + 200 ≤ N }
    ensures text { out.new.items ≡ out.old.items ++ (codes "Grand total: " ++ counters_text (codes " bytes") counters.now) }
    ensures short { array_vec_len out.new ≤ array_vec_len out.old + 200 }
{
    put_word(out, b"Grand total: ");
    put_counters(out, b" bytes", counters);
}

/// "stat pins A files B descriptors C locks D snapshots E plans F refs G owners H contexts I"
#[inline(never)]
pub fn put_stat<const N: usize>(out: &mut ArrayVec<u8, N>, counts: &SessionCounts)
    requires { array_vec_len out.old + 300 ≤ N }
    ensures text { out.new.items ≡ out.old.items ++ stat_text counts.now }
    ensures short { array_vec_len out.new ≤ array_vec_len out.old + 300 }
{
    put_both(out, b"stat pins ", counts.pins, b" files ", counts.files);
    let (descriptors, locks) = (counts.descriptors, counts.locks);
    put_both(out, b" descriptors ", descriptors, b" locks ", locks);
    let (snapshots, plans) = (counts.snapshots, counts.plans);
    put_both(out, b" snapshots ", snapshots, b" plans ", plans);
    put_both(out, b" refs ", counts.refs, b" owners ", counts.owners);
    put_counted(out, b" contexts ", counts.contexts);
}

/// "cK NAME", with two spaces before it for each level.
fn put_context<const N: usize>(out: &mut ArrayVec<u8, N>, depth: Depth, context: u64, name: &Name)
    requires { array_vec_len out.old + 254 ≤ N }
    ensures text { out.new.items ≡ out.old.items ++ (replicate (2 * depth) 32 ++ codes "c" ++ decimal context ++ codes " " ++ name.now) }
    ensures short { array_vec_len out.new ≤ array_vec_len out.old + 254 }
{
    put_spaces(out, depth);
    put_counted(out, b"c", context);
    put_word(out, b" ");
    put(out, name.as_slice());
}

/// Two spaces for each level.
fn put_spaces<const N: usize>(out: &mut ArrayVec<u8, N>, depth: Depth)
    requires { array_vec_len out.old + 200 ≤ N }
    ensures text { out.new.items ≡ out.old.items ++ replicate (2 * depth) 32 }
    ensures short { array_vec_len out.new ≤ array_vec_len out.old + 200 }
{
    put(out, &SPACES[..2 * depth.levels() as usize]);
}

/// "T UNIT in B blocks; F free (C chunks); U used"
fn put_counters<const N: usize>(out: &mut ArrayVec<u8, N>, unit: &[u8], counters: &MemoryCounters)
    requires { (array_vec_len out.old + 180 ≤ N) × (length unit.now ≤ 10) }
    ensures text { out.new.items ≡ out.old.items ++ counters_text unit.now counters.now }
    ensures short { array_vec_len out.new ≤ array_vec_len out.old + 180 }
{
    put_number(out, counters.total);
    put(out, unit);
    put_blocks(out, counters);
}

/// " in B blocks; F free (C chunks); U used"
fn put_blocks<const N: usize>(out: &mut ArrayVec<u8, N>, counters: &MemoryCounters)
    requires { array_vec_len out.old + 140 ≤ N }
    ensures text { out.new.items ≡ out.old.items ++ blocks_text counters.now }
    ensures short { array_vec_len out.new ≤ array_vec_len out.old + 140 }
{
    let used = counters.total.saturating_sub(counters.free);
    put_both(out, b" in ", counters.blocks, b" blocks; ", counters.free);
    put_both(out, b" free (", counters.chunks, b" chunks); ", used);
    put_word(out, b" used");
}
