//! How many sessions pin each buffer.
ghost use Rattle.std.specs.Prelude.{◌≡◌, ◌≢◌, ◌<◌, ◌≤◌, ◌+◌, ◌-◌, ◌^◌, ℕ, replicate, IfOk};
ghost use Rattle.pin_table.specs.Pins.{sessions_of};

use std::alloc::{AllocError, Global};
use std::marker::Model;

/// How many buffers there are: they are numbered from 0.
pub const BUFFERS: u32 = 1024;

/// For each buffer the number of sessions that pin it.
///
/// All sessions share one value. Contracts see the list of the counts, buffer 0 first.
#[derive(Drop)]
pub struct SharedPins {
    counts: Vec<u32>,
}

impl Model for SharedPins {
    ghost use Rattle.std.specs.Prelude.{◌≡◌, ℕ, List};
    ghost use Rattle.std.specs.Vec.{vec_len};

    ghost Value = { List ℕ };

    ghost view = { λ s. s.counts.items };

    ghost invariant = { λ s. vec_len s.counts ≡ 1024 };
}

impl SharedPins {
    /// No session pins a buffer. It fails for want of memory alone.
    pub fn new(alloc: Global) -> Result<SharedPins, AllocError>
        ensures counts { IfOk result (λ shared. shared ≡ replicate 1024 0) }
        ensures none { IfOk result (λ shared. (buffer : ℕ) → sessions_of shared buffer ≡ 0) }
    {
        Ok(SharedPins {
            counts: vec![in alloc; 0; BUFFERS as usize]?,
        })
    }

    /// How many sessions pin the buffer: 0 where there is no buffer of that number.
    pub fn count(&self, buffer: u32) -> u32
        ensures { result ≡ sessions_of self.now buffer }
    {
        self.counts.get(buffer as usize).copied().unwrap_or(0)
    }

    /// One session more pins the buffer: what a session's first pin of it does.
    pub fn raise(&mut self, buffer: u32)
        requires buffer { buffer < BUFFERS }
        requires room { sessions_of self.old buffer < 2 ^ 32 - 1 }
        ensures raised { sessions_of self.new buffer ≡ sessions_of self.old buffer + 1 }
        ensures others { (q : ℕ) → q ≢ buffer → sessions_of self.new q ≡ sessions_of self.old q }
    {
        self.counts[buffer as usize] += 1;
    }

    /// One session less pins the buffer: what a session's last unpin of it does.
    pub fn lower(&mut self, buffer: u32)
        requires { 1 ≤ sessions_of self.old buffer }
        ensures lowered { sessions_of self.new buffer + 1 ≡ sessions_of self.old buffer }
        ensures others { (q : ℕ) → q ≢ buffer → sessions_of self.new q ≡ sessions_of self.old q }
    {
        self.counts[buffer as usize] -= 1;
    }
}
