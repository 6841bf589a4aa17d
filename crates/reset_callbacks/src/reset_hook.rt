ghost use Rattle.std.specs.Prelude.{◌≡◌};
ghost use Rattle.reset_callbacks.specs.Hook.{Hook, ran};

/// What is called before a memory context gives its memory back: a reset callback.
pub trait ResetHook: Drop {
    ghost hook_meaning: { Self → Hook };

    /// The number by which the hook is known.
    fn word(&self) -> u64
        ensures { result ≡ (hook_meaning self.now).word };

    /// Runs the hook once more. A count of 2^64 - 1 runs stands still.
    fn run(&mut self)
        ensures { hook_meaning self.new ≡ ran (hook_meaning self.old) };
}
