//! The words of a line.
ghost use Rattle.std.specs.Prelude.{◌≡◌, ◌≢◌, ◌≤◌, ◌==◌, ◌++◌, ◌∷◌, [], ℕ, All, Contains, IfSome, IfNone, ◌<◌, ◌+◌, ◌*◌, ◌^◌};
ghost use Rattle.std.specs.Option.{SomeIff};
ghost use Rattle.std.specs.Char.{digit_value};
ghost use Rattle.std.specs.List.{before_first, after_first};
ghost use Rattle.std.specs.Fmt.{decimal};

use crate::finding::first_from;

/// Splits at the first space: the bytes before it, and those behind it.
///
/// Without a space the second part is empty. So `a` and `a ` with a space at its end have the same parts.
pub fn next_token(rest: &[u8]) -> (&[u8], &[u8])
    ensures word { result.0.now ≡ before_first (λ b. b == 32) rest.now }
    ensures behind { result.1.now ≡ after_first (λ b. b == 32) rest.now }
    ensures no_space { All (λ b. b ≢ 32) result.0.now }
    ensures split { Contains rest.now 32 → result.0.now ++ 32 ∷ result.1.now ≡ rest.now }
    ensures whole { All (λ b. b ≢ 32) rest.now → (result.0.now ≡ rest.now) × (result.1.now ≡ []) }
{
    match first_from(rest, 0, b' ') {
        Some(at) => (&rest[..at], &rest[at + 1..]),
        None => (rest, &[]),
    }
}

/// The number that the word writes in decimal digits, with no sign and no leading zero, where it is at most `max`.
///
/// `0` alone is a number. Anything else is `None`.
pub fn number(word: &[u8], max: u64) -> Option<u64>
    ensures read { IfSome result (λ n. word.now ≡ decimal n) }
    ensures bound { IfSome result (λ n. n ≤ max) }
    ensures none { IfNone result ((n : ℕ) → n ≤ max → word.now ≢ decimal n) }
{
    if word.is_empty() {
        return None;
    }
    if word.len() > 1 && word[0] == b'0' {
        return None;
    }
    let mut value = 0;
    for digit in word {
        let Some(longer) = with_digit(value, *digit) else {
            return None;
        };
        value = longer;
    }
    if value <= max { Some(value) } else { None }
}

/// The number with one more decimal digit behind it, where that is a digit and the number fits.
fn with_digit(value: u64, digit: u8) -> Option<u64>
    ensures { SomeIff result ((digit_value digit < 10) × (value * 10 + digit_value digit < 2 ^ 64)) (value * 10 + digit_value digit) }
{
    if !digit.is_ascii_digit() {
        return None;
    }
    value.checked_mul(10)?.checked_add((digit - b'0') as u64)
}
