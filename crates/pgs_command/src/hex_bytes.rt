//! Bytes as a line writes them.
ghost use Rattle.std.specs.Prelude.{◌≡◌, ◌≤◌, ◌↔◌, length, IfSome, IsTrue};
ghost use Rattle.std.specs.Result.{result_ok};
ghost use Rattle.hex.specs.Hex.{decode_of};
ghost use Rattle.pgs_command.specs.Values.{bytes_of};
ghost use Rattle.pgs_command.specs.Ranges.{IsBetween};

use pgs_step::ChunkBytes;
use std::marker::Model;

/// 1 to 128 bytes that a line writes in hexadecimal digits, of which it keeps no copy: what holds them lasts no longer than the line.
///
/// Contracts see them as their list.
#[derive(Debug, Drop)]
pub struct HexBytes<'a> {
    digits: &'a [u8],
}

impl<'a> Model for HexBytes<'a> {
    ghost use Rattle.std.specs.Prelude.{ℕ, List, length, ◌≤◌, IsSome};
    ghost use Rattle.pgs_command.specs.Values.{bytes_of, bytes_in};

    ghost Value = { List ℕ };

    ghost view = { λ h. bytes_in h.digits.now };

    ghost invariant = { λ h. IsSome (bytes_of h.digits.now) };
}

impl<'a> HexBytes<'a> {
    /// The bytes that a word writes: `None` exactly where it isn't 2 to 256 digits, an even number of them.
    pub fn new(word: &'a [u8]) -> Option<HexBytes<'a>>
        ensures value { result ≡ bytes_of word.now }
        ensures in_range { IfSome result (λ bytes. IsBetween 1 128 (length bytes)) }
    {
        if read_bytes(word).is_some() {
            return Some(HexBytes { digits: word });
        }
        None
    }

    /// The bytes.
    pub fn decoded(&self) -> ChunkBytes
        ensures { result ≡ self.now }
    {
        match read_bytes(self.digits) {
            Some(bytes) => bytes,
            None => unreachable!(),
        }
    }
}

impl<'a> PartialEq for HexBytes<'a> {
    ghost use Rattle.std.specs.Prelude.{◌==◌};
    ghost use Rattle.std.proofs.Common.{rules};
    ghost use Rattle.std.specs.Cmp.Rules.{comparing};
    ghost use lib.Pointwise.{pointwise};

    ghost eq = { pointwise ◌==◌ };

    ghost laws = { Prim.search (comparing, rules) };

    fn eq(&self, other: &HexBytes<'a>) -> bool
        ensures value { result ≡ pointwise ◌==◌ self.now other.now }
        ensures same { IsTrue result ↔ (self.now ≡ other.now) }
    {
        self.decoded() == other.decoded()
    }
}

impl<'a> Eq for HexBytes<'a> {
    ghost use Rattle.std.proofs.Common.{rules};
    ghost use Rattle.std.specs.Cmp.Rules.{comparing};

    ghost laws = { Prim.search (comparing, rules) };
}

/// The bytes that a word writes in hexadecimal digits.
fn read_bytes(word: &[u8]) -> Option<ChunkBytes>
    ensures { result ≡ bytes_of word.now }
{
    if word.len() < 2 || word.len() > 256 {
        return None;
    }
    decoded(word)
}

/// The bytes that pairs of hexadecimal digits write.
fn decoded(digits: &[u8]) -> Option<ChunkBytes>
    requires { length digits.now ≤ 256 }
    ensures { result ≡ result_ok (decode_of digits.now) }
{
    let mut places = [0; 128];
    let bytes = &mut places[..digits.len() / 2];
    match hex::decode_to_slice(digits, bytes) {
        Ok(()) => ChunkBytes::new(bytes),
        Err(_) => None,
    }
}
