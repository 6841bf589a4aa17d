//! Words that stand in a space, read.
ghost use Rattle.std.specs.Prelude.{◌≡◌, ℕ, ◌≤◌, List, length};
ghost use Rattle.addr_space.specs.Space.{HasBytes};
ghost use Rattle.chunk_header.specs.declared.Header.{Header};
ghost use Rattle.chunk_header.specs.Header.{header_place, header_bytes, IsPackable};

use crate::{CHUNK_HEADER, Header};
use addr_space::{Addr, Space};

/// Eight known bytes from an address on.
#[tactic(auto, using(crate::proofs::Known::same_bytes))]
#[inline]
pub fn word_at(space: &Space, at: Addr) -> [u8; 8]
    requires { (bytes : List ℕ) × (length bytes ≡ 8) × HasBytes space.now at bytes }
    ensures { (bytes : List ℕ) → length bytes ≡ 8 → HasBytes space.now at bytes → result ≡ bytes }
{
    let mut word = [0; 8];
    space.read(at, &mut word);
    word
}

/// The header that stands in the 8 bytes before a chunk.
#[inline]
pub fn header_at(space: &Space, at: Addr) -> Header
    requires behind { CHUNK_HEADER ≤ at.offset }
    requires known { (header : Header) × IsPackable header × HasBytes space.now (header_place at) (header_bytes header) }
    ensures { (header : Header) → IsPackable header → HasBytes space.now (header_place at) (header_bytes header) → result ≡ header }
{
    let place = Addr {
        region: at.region,
        offset: at.offset - CHUNK_HEADER,
    };
    let word = u64::from_le_bytes(word_at(space, place));
    match Header::unpack(word) {
        Ok(header) => header,
        Err(_) => unreachable!(),
    }
}
