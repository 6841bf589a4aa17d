//! A sink that tells somebody at a terminal how far a sweep is.
ghost use Rattle.std.specs.Prelude.{◌≡◌};

use pgs_io::{Failed, Sink};
use std::time::{Clock, Instant};

/// For how many seconds nothing is told.
const PAUSE: u64 = 1;

/// A sink that hands all on to another one. Once a second it says on standard error how many writes there were: one for each run of a sweep.
#[derive(Drop)]
pub struct Watched<'a, K: Sink, R> {
    sink: K,
    runs: u64,
    /// When something was told, or the sink was made; nothing is told without it.
    told: Option<Instant>,
    rt: &'a R,
}

impl<'a, K: Sink, R: Clock + Eprint> Watched<'a, K, R> {
    /// A sink before this one. Where nobody `watches` it tells nothing.
    pub fn new(sink: K, watches: bool, rt: &'a R) -> Watched<'a, K, R>
        ensures { result.sink ≡ sink }
    {
        let told = if watches { Instant::now(rt).ok() } else { None };
        Watched {
            sink,
            runs: 0,
            told,
            rt,
        }
    }

    /// Tells how many runs there were, where a second has gone by.
    fn tell(&mut self)
        ensures { self.new.sink ≡ self.old.sink }
    {
        self.runs = self.runs.saturating_add(1);
        let Some(told) = self.told else {
            return;
        };
        let Ok(now) = Instant::now(self.rt) else {
            return;
        };
        if now.duration_since(told).as_secs() < PAUSE {
            return;
        }
        self.told = Some(now);
        let runs = self.runs;
        let _ = eprintln!(self.rt; "pgscript: {runs} runs so far");
    }
}

impl<'a, K: Sink, R: Clock + Eprint> Sink for Watched<'a, K, R> {
    ghost written = { λ watched. K.written watched.sink };

    ghost faults = { λ watched. K.faults watched.sink };

    fn write(&mut self, bytes: &[u8]) -> Result<usize, Failed> {
        let count = self.sink.write(bytes)?;
        self.tell();
        Ok(count)
    }
}
