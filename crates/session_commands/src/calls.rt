//! The fallible calls of a run.
ghost use Rattle.std.specs.Prelude.{◌≡◌, ◌+◌, ◌<◌, ◌^◌, ◌==◌, true, false, OnOk, IfErr};
ghost use Rattle.pgs_step.specs.declared.errors.Error.TheVariants as error;

use pgs_step::Error;

/// How many fallible calls a run has made, and which of them fails.
#[derive(Clone, Copy, Debug, PartialEq, Eq)]
pub struct Calls {
    /// How many were made.
    pub count: u64,
    /// The number of the call that fails, counted from 1; 0 is none.
    pub fail: u64,
}

impl Calls {
    /// Counts a call. `Injected` comes exactly where it is the one that fails.
    pub fn next(&mut self) -> Result<(), Error>
        requires { self.old.count < 2 ^ 62 }
        ensures counted { self.new ≡ record self.old { count = self.old.count + 1 } }
        ensures goes { OnOk result ((self.old.count + 1 == self.old.fail) ≡ false) }
        ensures injected { IfErr result (λ e. (e ≡ error.Injected (self.old.count + 1)) × ((self.old.count + 1 == self.old.fail) ≡ true)) }
    {
        self.count += 1;
        if self.count == self.fail {
            return Err(Error::Injected(self.count));
        }
        Ok(())
    }
}
