//! The modes of heavyweight locks.
ghost use Rattle.std.specs.Prelude.{◌≡◌};
ghost use Rattle.pgs_step.specs.Mode.{mode_number, mode_name};

/// The modes of a lock on an object: PostgreSQL's `LOCKMODE`, from the weakest to the strongest.
#[derive(Clone, Copy, Debug, PartialEq, Eq)]
pub enum Mode {
    AccessShareLock = 1,
    RowShareLock = 2,
    RowExclusiveLock = 3,
    ShareUpdateExclusiveLock = 4,
    ShareLock = 5,
    ShareRowExclusiveLock = 6,
    ExclusiveLock = 7,
    AccessExclusiveLock = 8,
}

impl Mode {
    /// The mode's number in PostgreSQL, 1 to 8.
    pub fn number(self) -> u8
        ensures { result ≡ mode_number self }
    {
        self as u8
    }

    /// The mode's name in events and script lines.
    pub fn name(self) -> &'static [u8]
        ensures { result.now ≡ mode_name self }
    {
        match self {
            Mode::AccessShareLock => b"AccessShareLock",
            Mode::RowShareLock => b"RowShareLock",
            Mode::RowExclusiveLock => b"RowExclusiveLock",
            Mode::ShareUpdateExclusiveLock => b"ShareUpdateExclusiveLock",
            Mode::ShareLock => b"ShareLock",
            Mode::ShareRowExclusiveLock => b"ShareRowExclusiveLock",
            Mode::ExclusiveLock => b"ExclusiveLock",
            Mode::AccessExclusiveLock => b"AccessExclusiveLock",
        }
    }
}
