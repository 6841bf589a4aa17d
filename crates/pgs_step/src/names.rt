//! Names that a script gives to contexts, chunks, savepoints and portals.
ghost use Rattle.std.specs.Prelude.{◌≡◌, ◌==◌, ◌↔◌, IsSome, IfSome, IsTrue};
ghost use lib.Pointwise.{pointwise};
ghost use Rattle.std.specs.List.{list_all};
ghost use Rattle.pgs_step.specs.Name.{IsName, is_name_byte};

use std::hash::{Hash, Hasher};
use std::marker::Model;

/// The most bytes that a name has.
pub const NAME_BYTES: usize = 32;

/// A name: 1 to 32 of the letters a to z and A to Z, the digits and the underscore.
///
/// Contracts see it as the list of its bytes.
#[derive(Clone, Copy, Debug)]
pub struct Name {
    bytes: [u8; 32],
    len: u8,
}

impl Model for Name {
    ghost use Rattle.std.specs.Prelude.{ℕ, List, ◌-◌, ◌++◌, length, take, drop, replicate};
    ghost use Rattle.std.proofs.Common.{ap, ◌∙◌};
    ghost use Rattle.pgs_step.specs.Name.{IsKeptName};
    ghost use Rattle.pgs_step.specs.Kept.{kept_bytes, kept_length};

    ghost Value = { List ℕ };

    ghost view = { λ n. take n.len n.bytes };

    ghost invariant = { λ n. IsKeptName n.bytes n.len };

    ghost inverse = { λ xs. record { bytes = xs ++ replicate (32 - length xs) 0; len = length xs } };

    ghost inverse_ok = { λ a h. ap (λ (n : ℕ). record { bytes = take a.len a.bytes ++ replicate (32 - length (take a.len a.bytes)) 0; len = n }) (kept_length 32 a.bytes a.len h.kept) ∙ ap (λ (xs : List ℕ). record { bytes = xs; len = a.len }) (kept_bytes 32 a.bytes a.len h.kept) };
}

impl Name {
    /// The name that a word is, and `None` exactly where the word isn't a name.
    pub fn new(word: &[u8]) -> Option<Name>
        ensures some { IsSome result ↔ IsName word.now }
        ensures value { IfSome result (λ name. name ≡ word.now) }
    {
        if !is_name(word) {
            return None;
        }
        let mut bytes = [0; 32];
        bytes[..word.len()].copy_from_slice(word);
        Some(Name {
            bytes,
            len: word.len() as u8,
        })
    }

    /// The bytes of the name.
    pub fn as_slice(&self) -> &[u8]
        ensures value { result.now ≡ self.now }
        ensures name { IsName self.now }
    {
        &self.bytes[..self.len as usize]
    }
}

impl PartialEq for Name {
    ghost use Rattle.std.specs.Prelude.{◌==◌};
    ghost use Rattle.std.proofs.Common.{rules};
    ghost use Rattle.std.specs.Cmp.Rules.{comparing};
    ghost use lib.Pointwise.{pointwise};

    ghost eq = { pointwise ◌==◌ };

    ghost laws = { Prim.search (comparing, rules) };

    fn eq(&self, other: &Name) -> bool
        ensures value { result ≡ pointwise ◌==◌ self.now other.now }
        ensures same { IsTrue result ↔ (self.now ≡ other.now) }
    {
        are_same(self.as_slice(), other.as_slice())
    }
}

impl Eq for Name {
    ghost use Rattle.std.proofs.Common.{rules};
    ghost use Rattle.std.specs.Cmp.Rules.{comparing};

    ghost laws = { Prim.search (comparing, rules) };
}

impl Hash for Name {
    ghost use Rattle.std.specs.Prelude.{[], ◌∷◌};
    ghost use Rattle.std.proofs.Common.{rules};
    ghost use Rattle.std.specs.Cmp.Rules.{comparing};

    ghost hash_input = { λ name. name ∷ [] };

    ghost respects_eq = { Prim.search (comparing, rules) };

    fn hash<H: Hasher>(&self, state: &mut H) {
        state.write(self.as_slice());
    }
}

/// Whether the bytes are the same ones, by a loop, since names are short and a comparison of slices is made for long ones.
#[inline]
fn are_same(bytes: &[u8], others: &[u8]) -> bool
    ensures { result ≡ pointwise ◌==◌ bytes.now others.now }
{
    if bytes.len() != others.len() {
        return false;
    }
    let mut at = 0;
    while at < others.len() {
        if bytes[at] != others[at] {
            return false;
        }
        at += 1;
    }
    true
}

fn is_name(word: &[u8]) -> bool
    ensures { IsTrue result ↔ IsName word.now }
{
    !word.is_empty() && word.len() <= NAME_BYTES && all_letters(word)
}

fn all_letters(word: &[u8]) -> bool
    ensures { result ≡ list_all is_name_byte word.now }
{
    word.iter().all(|b| is_letter(*b))
}

/// Which bytes stand in names: letters, digits and the underscore.
static NAME_BYTE: [bool; 256] = [
    false, false, false, false, false, false, false, false, false, false, false, false, false,
    false, false, false, false, false, false, false, false, false, false, false, false, false,
    false, false, false, false, false, false, false, false, false, false, false, false, false,
    false, false, false, false, false, false, false, false, false, true, true, true, true, true,
    true, true, true, true, true, false, false, false, false, false, false, false, true, true,
    true, true, true, true, true, true, true, true, true, true, true, true, true, true, true, true,
    true, true, true, true, true, true, true, true, false, false, false, false, true, false, true,
    true, true, true, true, true, true, true, true, true, true, true, true, true, true, true, true,
    true, true, true, true, true, true, true, true, true, false, false, false, false, false, false,
    false, false, false, false, false, false, false, false, false, false, false, false, false,
    false, false, false, false, false, false, false, false, false, false, false, false, false,
    false, false, false, false, false, false, false, false, false, false, false, false, false,
    false, false, false, false, false, false, false, false, false, false, false, false, false,
    false, false, false, false, false, false, false, false, false, false, false, false, false,
    false, false, false, false, false, false, false, false, false, false, false, false, false,
    false, false, false, false, false, false, false, false, false, false, false, false, false,
    false, false, false, false, false, false, false, false, false, false, false, false, false,
    false, false, false, false, false, false, false, false, false, false, false, false, false,
    false, false, false, false, false, false, false, false, false, false,
];

/// A letter, a digit or an underscore.
#[inline]
fn is_letter(b: u8) -> bool
    ensures { result ≡ is_name_byte b }
{
    NAME_BYTE[b as usize]
}
