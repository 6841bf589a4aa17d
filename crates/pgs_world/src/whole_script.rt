//! Reads a script whole into memory.
ghost use Rattle.std.specs.Prelude.{◌≡◌, ◌≤◌, [], vec_capacity, OnOk, IfErr};
ghost use Rattle.pgs_world.specs.Sweep.{IsRead};
ghost use Rattle.pgs_world.specs.SweepSteps.{IsUnread};

use pgs_io::{MOST_READ, Source};

/// The most bytes that a script has which is swept.
pub(crate) const MOST_SWEPT: usize = 1 << 16;

/// Why a script was not read whole.
#[derive(Clone, Copy, PartialEq, Eq)]
pub(crate) enum Unread {
    /// The source failed.
    Fault,
    /// The script has a byte too many.
    TooLong,
}

/// Reads all that the source has left into an empty vector with room for one byte more than a script may have.
pub(crate) fn read_script<S: Source>(src: &mut S, script: &mut Vec<u8>) -> Result<(), Unread>
    requires none { script.old.items ≡ [] }
    requires room { 65537 ≤ vec_capacity script.old }
    ensures whole { OnOk result (IsRead script.new.items (S.left src.old) (S.left src.new)) }
    ensures no_fault { OnOk result (S.faults src.new ≡ S.faults src.old) }
    ensures unread { IfErr result (λ why. IsUnread why (S.left src.old) (S.left src.new) (S.faults src.old) (S.faults src.new)) }
{
    let mut chunk = [0; MOST_READ];
    loop {
        let most = (MOST_SWEPT + 1 - script.len()).min(MOST_READ);
        let Ok(count) = src.read(&mut chunk[..most]) else {
            return Err(Unread::Fault);
        };
        if count == 0 {
            return Ok(());
        }
        let _ = script.extend_from_slice(&chunk[..count]);
        if script.len() > MOST_SWEPT {
            return Err(Unread::TooLong);
        }
    }
}
