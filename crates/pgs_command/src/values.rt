//! What a word stands for.
ghost use Rattle.std.specs.Prelude.{◌≡◌, ◌≤◌, find, IfSome};
ghost use Rattle.pgs_step.specs.Mode.{mode_name};
ghost use Rattle.pgs_command.specs.Values.{name_of, number_between, class_of, mode_of, plain_kind};

use crate::kinds::{ContextKind, ReferenceClass};
use crate::picks::{by_word, is_word};
use pgs_io::number;
use pgs_step::{Mode, Name};

/// The name that a word is.
pub(crate) fn read_name(word: &[u8]) -> Option<Name>
    ensures { result ≡ name_of word.now }
{
    Name::new(word)
}

/// The number from `least` to `most` that a word writes.
pub(crate) fn read_number(word: &[u8], least: u32, most: u32) -> Option<u32>
    ensures read { result ≡ number_between least most word.now }
    ensures bound { IfSome result (λ n. n ≤ most) }
{
    match number(word, most as u64) {
        Some(value) => {
            if value < least as u64 {
                None
            } else {
                Some(value as u32)
            }
        }
        None => None,
    }
}

/// The class of references that a word names.
#[tactic(auto, unfolding(crate::specs::Values::class_of))]
pub(crate) fn read_class(word: &[u8]) -> Option<ReferenceClass>
    ensures { result ≡ class_of word.now }
{
    by_word! { word;
        b"relcache" => Some(ReferenceClass::Relcache),
        b"catcache" => Some(ReferenceClass::Catcache),
        b"catlist" => Some(ReferenceClass::CatcacheList),
        b"tupdesc" => Some(ReferenceClass::TupleDescriptor),
    }
}

/// The mode of a lock that a word names.
#[tactic(auto, unfolding(crate::specs::Values::mode_of))]
pub(crate) fn read_mode(word: &[u8]) -> Option<Mode>
    ensures { result ≡ mode_of word.now }
{
    by_word! { word;
        b"AccessShareLock" => Some(Mode::AccessShareLock),
        b"RowShareLock" => Some(Mode::RowShareLock),
        b"RowExclusiveLock" => Some(Mode::RowExclusiveLock),
        b"ShareUpdateExclusiveLock" => Some(Mode::ShareUpdateExclusiveLock),
        b"ShareLock" => Some(Mode::ShareLock),
        b"ShareRowExclusiveLock" => Some(Mode::ShareRowExclusiveLock),
        b"ExclusiveLock" => Some(Mode::ExclusiveLock),
        b"AccessExclusiveLock" => Some(Mode::AccessExclusiveLock),
    }
}

/// The kind of a context that a word alone names.
pub(crate) fn read_plain_kind(word: &[u8]) -> Option<ContextKind>
    ensures { result ≡ plain_kind word.now }
{
    by_word! { word;
        b"default" => Some(ContextKind::Default),
        b"small" => Some(ContextKind::Small),
        b"generation" => Some(ContextKind::Generation),
        b"bump" => Some(ContextKind::Bump),
    }
}
