//! The refusals of calls as errors of commands.
ghost use Rattle.std.specs.Prelude.{◌≡◌, ◌≢◌, ℕ};
ghost use Rattle.pgs_step.specs.declared.errors.Error.TheVariants as error;
ghost use Rattle.file_table.specs.declared.files.FileError.TheVariants as file;
ghost use Rattle.pgs_step.specs.declared.lock_modes.Mode.{Mode};
ghost use Rattle.lock_local.specs.declared.errors.LockError.TheVariants as lock;
ghost use Rattle.context_rules.specs.declared.errors.TreeError.TheVariants as tree;
ghost use Rattle.owner_kinds.specs.declared.ext_kind.KindError.TheVariants as kind;
ghost use Rattle.session_rules.specs.Checks.{space_error, tree_error};
ghost use Rattle.session_store.specs.declared.hooks.RegisterError.TheVariants as register;

use chunk_header::CtxError;
use context_rules::TreeError;
use file_table::FileError;
use lock_local::LockError;
use owner_kinds::KindError;
use pgs_step::Error;
use session_store::RegisterError;

/// The refusal of a call on contexts as an error. `Memory` is told by the number of the fallible call that met it.
pub fn call_error(refusal: TreeError, call: u64) -> Error
    ensures memory { refusal ≡ tree.Memory → result ≡ error.NoMemory call }
    ensures own { refusal ≢ tree.Memory → result ≡ tree_error refusal }
{
    match refusal {
        TreeError::Memory => Error::NoMemory(call),
        other => tree_error(other),
    }
}

/// The refusal of a call on contexts that takes no memory as an error.
pub(crate) fn tree_error(refusal: TreeError) -> Error
    ensures { result ≡ tree_error refusal }
{
    match refusal {
        TreeError::NoName => Error::NoSuchName,
        TreeError::Taken => Error::NameTaken,
        TreeError::Protected => Error::ContextProtected,
        TreeError::InUse => Error::ContextInUse,
        TreeError::Cycle => Error::ContextCycle,
        TreeError::Range => Error::OutsideChunk,
        TreeError::TooMany => Error::LimitReached,
        TreeError::Ctx(refusal) => space_error(refusal),
        TreeError::Memory => Error::OutOfSpace,
    }
}

/// The refusal of a hook as an error. `Memory` is told by the number of the fallible call that met it.
pub(crate) fn register_error(refusal: RegisterError, call: u64) -> Error
    ensures none { refusal ≡ register.NoHook → result ≡ error.LimitReached }
    ensures memory { refusal ≡ register.Memory → result ≡ error.NoMemory call }
{
    match refusal {
        RegisterError::NoHook => Error::LimitReached,
        RegisterError::Memory => Error::NoMemory(call),
    }
}

fn space_error(refusal: CtxError) -> Error
    ensures { result ≡ space_error refusal }
{
    match refusal {
        CtxError::TooBig => Error::TooBig,
        CtxError::NoSpace => Error::OutOfSpace,
        CtxError::WrongSize => Error::WrongChunkSize,
        CtxError::Unsupported => Error::Unsupported,
        CtxError::Memory => Error::OutOfSpace,
    }
}

/// The error of a file that wasn't opened, at that fallible call.
pub(crate) fn open_error(refusal: FileError, call: u64) -> Error
    ensures full { refusal ≡ file.TooMany → result ≡ error.LimitReached }
    ensures other { refusal ≢ file.TooMany → result ≡ error.NoMemory call }
{
    match refusal {
        FileError::TooMany => Error::LimitReached,
        _ => Error::NoMemory(call),
    }
}

/// The error of an item of an extension kind that wasn't taken, at that fallible call.
pub(crate) fn kind_error(refusal: KindError, call: u64) -> Error
    ensures full { refusal ≡ kind.Full → result ≡ error.KindLimit }
    ensures memory { refusal ≡ kind.Memory → result ≡ error.NoMemory call }
{
    match refusal {
        KindError::Full => Error::KindLimit,
        KindError::Memory => Error::NoMemory(call),
    }
}

/// The error of a lock that wasn't taken, at that fallible call.
pub(crate) fn lock_error(refusal: LockError, call: u64) -> Error
    ensures conflict { (session : ℕ) (mode : Mode) → refusal ≡ lock.Conflict session mode → result ≡ error.LockHeld session mode }
    ensures memory { refusal ≡ lock.Memory → result ≡ error.NoMemory call }
{
    match refusal {
        LockError::Conflict { session, mode } => Error::LockHeld { session, mode },
        LockError::NotHeld => Error::NotHeld,
        LockError::Memory => Error::NoMemory(call),
    }
}
