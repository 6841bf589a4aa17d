//! Makes calls on memory contexts and on a session's tree of them, so that the cost of a pair of calls can be counted.
//!
//! A line `chunks KIND SIZE LIVE PAIRS ORDER` of the standard input takes and frees chunks. KIND is `default`, `slab`, `generation` or
//! `bump`, and ORDER `newest` or `oldest`: a new context takes LIVE chunks of SIZE bytes, and then PAIRS times one more, for which the
//! newest or the oldest chunk is freed. A Bump frees none, so its ORDER is `newest`. What the context holds then is printed.
//!
//! A line `contexts WHAT LIVE TIMES` makes and deletes contexts. Beside LIVE contexts, a context is made and deleted TIMES times,
//! where WHAT is `default` or `small`, or a chunk with a name is taken and freed, where it is `chunk`. Where it is `chain`, LIVE
//! contexts are made, each in the one before, and then deleted, TIMES times. How many contexts live then and what they hold is printed.
#![tactic(auto)]

mod chunks;
mod contexts;

use anyhow::bail;

fn main(rt: HostRuntime) -> anyhow::Result<()> {
    for line in rt.lines(rt.alloc()) {
        let line = line?;
        if let Some(plan) = chunks::Plan::parse(line.as_str()) {
            match plan.run(rt.alloc()) {
                Ok(stats) => println!(rt;
                    "total {} blocks {} free {} chunks {}",
                    stats.total, stats.blocks, stats.free, stats.chunks
                )?,
                Err(error) => bail!("refused: {error:?}"),
            }
        } else if let Some(plan) = contexts::Plan::parse(line.as_str()) {
            match plan.run(rt.alloc()) {
                Ok((count, held)) => println!(rt; "contexts {count} bytes {held}")?,
                Err(error) => bail!("refused: {error:?}"),
            }
        } else {
            bail!("neither chunks KIND SIZE LIVE PAIRS ORDER nor contexts WHAT LIVE TIMES: {line}");
        }
    }
    Ok(())
}
