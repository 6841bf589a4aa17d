//! The words of a line, read one by one.
ghost use Rattle.std.specs.Prelude.{◌≡◌, ◌≤◌, ◌∷◌, drop, slice_get, IfSome};
ghost use Rattle.std.specs.Option.{option_copied, option_and_then};
ghost use Rattle.pgs_command.specs.Words.{words_of, words_in, alone, only, pair};
ghost use Rattle.pgs_command.specs.Values.{name_of, number_of, number_between, bytes_of, length_of, count_of, turns_of, class_of, mode_of, kind_of};

use crate::kinds::ReferenceClass;
use crate::values::{read_class, read_mode, read_name, read_number};
use pgs_io::next_token;
use pgs_step::{Mode, Name};
use std::marker::Model;

/// The words of a line that are still to be read: those of a text, or none.
///
/// Contracts see them as their list.
#[derive(Drop)]
pub(crate) struct Words<'a> {
    text: Option<&'a [u8]>,
}

impl<'a> Model for Words<'a> {
    ghost use Rattle.std.specs.Prelude.{ℕ, List};
    ghost use Rattle.std.specs.Option.{option_copied};
    ghost use Rattle.pgs_command.specs.Words.{words_in};

    ghost Value = { List (List ℕ) };

    ghost view = { λ w. words_in (option_copied w.text) };
}

impl<'a> Words<'a> {
    /// The words of a text, or none.
    pub(crate) fn new(text: Option<&'a [u8]>) -> Words<'a>
        ensures { result ≡ words_in (option_copied text.entry) }
    {
        Words { text }
    }

    /// The first word, which is then read.
    pub(crate) fn next(&mut self) -> Option<&'a [u8]>
        ensures word { option_copied result ≡ slice_get self.old 0 }
        ensures behind { self.new ≡ drop 1 self.old }
    {
        match self.text {
            None => None,
            Some(text) => {
                let (word, rest) = split_word(text);
                self.text = rest;
                Some(word)
            }
        }
    }

    /// The value, where no word is left.
    pub(crate) fn end<T: Drop>(self, value: T) -> Option<T>
        ensures { result ≡ alone value self.entry }
    {
        match self.text {
            Some(_) => None,
            None => Some(value),
        }
    }

    /// The name that the first word is.
    pub(crate) fn name(&mut self) -> Option<Name>
        ensures value { result ≡ option_and_then name_of (slice_get self.old 0) }
        ensures behind { self.new ≡ drop 1 self.old }
    {
        read_name(self.next()?)
    }

    /// The number from `least` to `most` that the first word is.
    pub(crate) fn number(&mut self, least: u32, most: u32) -> Option<u32>
        ensures value { result ≡ option_and_then (number_between least most) (slice_get self.old 0) }
        ensures bound { IfSome result (λ n. n ≤ most) }
        ensures behind { self.new ≡ drop 1 self.old }
    {
        read_number(self.next()?, least, most)
    }

    /// The one word that is left, a name.
    #[inline(always)]
    pub(crate) fn only_name(self) -> Option<Name>
        ensures { result ≡ only name_of self.entry }
    {
        // A text with a second word has a space, and is no name.
        match self.text {
            Some(text) => read_name(text),
            None => None,
        }
    }

    /// The one word that is left, a number.
    #[inline(always)]
    pub(crate) fn only_number(self) -> Option<u32>
        ensures { result ≡ only number_of self.entry }
    {
        // A text with a second word has a space, and is no number.
        match self.text {
            Some(text) => read_number(text, 0, u32::MAX),
            None => None,
        }
    }

    /// The one word that is left, the mode of a lock.
    #[inline(always)]
    fn only_mode(self) -> Option<Mode>
        ensures { result ≡ only mode_of self.entry }
    {
        // A text with a second word has a space, and is no mode.
        match self.text {
            Some(text) => read_mode(text),
            None => None,
        }
    }

    /// The two words that are left, a name and a number.
    #[inline(always)]
    pub(crate) fn name_and_number(mut self, least: u32, most: u32) -> Option<(Name, u32)>
        ensures { result ≡ pair name_of (number_between least most) self.entry }
    {
        let name = self.name()?;
        let number = self.number(least, most)?;
        self.end((name, number))
    }

    /// The two words that are left, both names.
    #[inline(always)]
    pub(crate) fn two_names(mut self) -> Option<(Name, Name)>
        ensures { result ≡ pair name_of name_of self.entry }
    {
        let first = self.name()?;
        let second = self.name()?;
        self.end((first, second))
    }

    /// The two words that are left, a number and the mode of a lock.
    #[inline(always)]
    pub(crate) fn number_and_mode(mut self) -> Option<(u32, Mode)>
        ensures { result ≡ pair number_of mode_of self.entry }
    {
        let number = self.number(0, u32::MAX)?;
        let mode = self.only_mode()?;
        Some((number, mode))
    }

    /// The two words that are left, a class of references and a number.
    #[inline(always)]
    pub(crate) fn class_and_number(mut self) -> Option<(ReferenceClass, u32)>
        ensures { result ≡ pair class_of number_of self.entry }
    {
        let class = read_class(self.next()?)?;
        let number = self.number(0, u32::MAX)?;
        self.end((class, number))
    }
}

/// The first word of a text, and the text behind the space at its end, where there is one.
pub(crate) fn split_word(text: &[u8]) -> (&[u8], Option<&[u8]>)
    ensures { words_of text.now ≡ result.0.now ∷ words_in (option_copied result.1) }
{
    let (word, rest) = next_token(text);
    if word.len() < text.len() {
        (word, Some(rest))
    } else {
        (word, None)
    }
}
