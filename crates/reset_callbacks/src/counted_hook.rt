ghost use Rattle.std.specs.Prelude.{◌≡◌};

use crate::reset_hook::ResetHook;
use std::marker::Model;

/// A hook that counts how often it has run, and does nothing else.
#[derive(Drop)]
pub struct CountedHook {
    word: u64,
    runs: u64,
}

impl Model for CountedHook {
    ghost use Rattle.reset_callbacks.specs.Hook.{Hook};

    ghost Value = { Hook };

    ghost view = { λ hook. record { word = hook.word; runs = hook.runs } };
}

impl CountedHook {
    /// A hook that has not run yet.
    pub fn new(word: u64) -> CountedHook
        ensures { result ≡ record { word = word; runs = 0 } }
    {
        CountedHook { word, runs: 0 }
    }

    /// How often it has run.
    pub fn runs(&self) -> u64
        ensures { result ≡ self.now.runs }
    {
        self.runs
    }
}

impl ResetHook for CountedHook {
    ghost hook_meaning = { λ hook. hook };

    fn word(&self) -> u64 {
        self.word
    }

    fn run(&mut self) {
        self.runs = self.runs.saturating_add(1);
    }
}
