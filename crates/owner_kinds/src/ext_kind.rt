ghost use Rattle.std.specs.Prelude.{◌≡◌, ◌≢◌, ◌≤◌, ◌↔◌, OnOk, OnErr};
ghost use Rattle.owner_kinds.specs.Kind.{Kind, IsFull, times, opened, closed};

use pgs_step::{Name, Phase};
use thiserror::Error;

/// Why a kind did not open a key.
#[derive(Clone, Copy, Debug, PartialEq, Eq, Error)]
pub enum KindError {
    /// The kind holds as many keys as it may.
    #[error("the kind is full")]
    Full,
    /// There was no memory.
    #[error("no memory")]
    Memory,
}

/// A kind of resource that the program adds to those that are built in: PostgreSQL's `ResourceOwnerDesc`.
///
/// What a kind stands for has its keys in rising order. How a kind keeps them is its own affair.
pub trait ExtKind: Drop {
    ghost kind_meaning: { Self → Kind };

    /// The name in events.
    fn name(&self) -> Name
        ensures { result ≡ (kind_meaning self.now).name };

    /// When its items are released: before or after the locks.
    fn phase(&self) -> Phase
        ensures value { result ≡ (kind_meaning self.now).phase }
        ensures not_locks { result ≢ Phase.Locks };

    /// The place in its phase: items of a kind with a lower number are released first.
    fn priority(&self) -> u32
        ensures value { result ≡ (kind_meaning self.now).priority }
        ensures least { 1 ≤ result }
        ensures greatest { result ≤ 1000000 };

    /// Holds the key once more.
    fn open(&mut self, key: u32) -> Result<(), KindError>
        ensures ok { OnOk result (kind_meaning self.new ≡ opened key (kind_meaning self.old)) }
        ensures err { OnErr result (kind_meaning self.new ≡ kind_meaning self.old) }

        // Where the kind holds as many keys as it may it answers Full, and nowhere else.
        ensures full { (result ≡ Err KindError.Full) ↔ IsFull (kind_meaning self.old) };

    /// Holds the key once less. It cannot fail.
    fn close(&mut self, key: u32)
        requires { 1 ≤ times key (kind_meaning self.old).held }
        ensures { kind_meaning self.new ≡ closed key (kind_meaning self.old) };
}
