//! A choice by a word.
ghost use Rattle.std.specs.Prelude.{◌≡◌};
ghost use Rattle.pgs_command.specs.Words.{is_text};

/// Returns the value beside the text that the word is, and `None` where it is none of them.
macro_rules! by_word {
    ($word:expr; $($text:literal => $value:expr),* $(,)?) => {{
        $(
            if is_word($word, $text.as_slice()) {
                return $value;
            }
        )*
        None
    }};
}

/// Writes the command of the row whose text the word is, and returns whether there is one.
///
/// A row's value is made of the parts that are read from the words behind it, and it has none where they aren't such parts; the variants
/// above the row say which command it is, the outermost first. A row that names no parts writes for itself.
macro_rules! write_by_words {
    ($word:expr, $place:expr, $($kinds:tt; $($text:literal $(, $parts:pat in $read:expr)? => $made:expr),* $(,)?);*) => {{
        $($(
            if is_word($word, $text.as_slice()) {
                return write_parts! { $place, $kinds; $made $(, $parts in $read)? };
            }
        )*)*
        false
    }};
}

/// Writes the command of the parts that are read, and says whether there are any. Without parts it is said by what writes for itself.
macro_rules! write_parts {
    ($place:expr, [$($kind:path),*]; $value:expr, $parts:pat in $read:expr) => {
        match $read {
            Some($parts) => {
                *$place = Some(made_of! { $value; $($kind),* });
                true
            }
            None => false,
        }
    };
    ($place:expr, $kinds:tt; $written:expr) => {
        $written
    };
}

/// The value within the variants, the outermost first.
macro_rules! made_of {
    ($value:expr;) => { $value };
    ($value:expr; $kind:path $(, $within:path)*) => { $kind(made_of! { $value; $($within),* }) };
}

pub(crate) use by_word;
pub(crate) use made_of;
pub(crate) use write_by_words;
pub(crate) use write_parts;

/// Whether the word is the text.
///
/// A loop of its own, which is unrolled where the text is a literal.
#[inline(always)]
pub(crate) fn is_word(word: &[u8], text: &[u8]) -> bool
    ensures { result ≡ is_text word.now text.now }
{
    if word.len() != text.len() {
        return false;
    }
    let mut at = 0;
    while at < text.len() {
        if word[at] != text[at] {
            return false;
        }
        at += 1;
    }
    true
}
