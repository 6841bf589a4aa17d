//! The table of conflicts between lock modes.
ghost use Rattle.std.specs.Prelude.{◌≡◌};
ghost use Rattle.lock_shared.specs.ModeTable.{conflicts as conflicts_with, conflicting};

use pgs_step::Mode;

/// Whether a lock in the mode `wanted` must wait while another session holds the object in the mode
/// `held`: PostgreSQL's `DoLockModesConflict`.
#[tactic(auto, unfolding(crate::specs::ModeTable::conflicts))]
pub fn conflicts(wanted: Mode, held: Mode) -> bool
    ensures { result ≡ conflicts_with wanted held }
{
    against(wanted).contains(&held.number())
}

/// The numbers of the modes that conflict with a mode: a row of PostgreSQL's `LockConflicts`.
fn against(mode: Mode) -> &'static [u8]
    ensures { result.now ≡ conflicting mode }
{
    match mode {
        Mode::AccessShareLock => &[8],
        Mode::RowShareLock => &[7, 8],
        Mode::RowExclusiveLock => &[5, 6, 7, 8],
        Mode::ShareUpdateExclusiveLock => &[4, 5, 6, 7, 8],
        Mode::ShareLock => &[3, 4, 6, 7, 8],
        Mode::ShareRowExclusiveLock => &[3, 4, 5, 6, 7, 8],
        Mode::ExclusiveLock => &[2, 3, 4, 5, 6, 7, 8],
        Mode::AccessExclusiveLock => &[1, 2, 3, 4, 5, 6, 7, 8],
    }
}
