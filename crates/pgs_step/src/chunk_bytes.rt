//! Bytes of a chunk, as a script line writes them and an event shows them.
ghost use Rattle.std.specs.Prelude.{◌≡◌, ◌↔◌, ◌≤◌, length, IsSome, IfSome, IsTrue};

use std::marker::Model;

/// The most bytes of a chunk that one line writes or shows.
pub const CHUNK_BYTES: usize = 128;

/// At most 128 bytes.
///
/// Contracts see them as their list.
#[derive(Clone, Copy, Debug)]
pub struct ChunkBytes {
    bytes: [u8; 128],
    len: u8,
}

impl Model for ChunkBytes {
    ghost use Rattle.std.specs.Prelude.{ℕ, List, ◌-◌, ◌++◌, length, take, replicate};
    ghost use Rattle.std.proofs.Common.{ap, ◌∙◌};
    ghost use Rattle.pgs_step.specs.Kept.{IsKept, kept_bytes, kept_length};

    ghost Value = { List ℕ };

    ghost view = { λ c. take c.len c.bytes };

    ghost invariant = { λ c. IsKept 128 c.bytes c.len };

    ghost inverse = { λ xs. record { bytes = xs ++ replicate (128 - length xs) 0; len = length xs } };

    ghost inverse_ok = { λ a h. ap (λ (n : ℕ). record { bytes = take a.len a.bytes ++ replicate (128 - length (take a.len a.bytes)) 0; len = n }) (kept_length 128 a.bytes a.len h) ∙ ap (λ (xs : List ℕ). record { bytes = xs; len = a.len }) (kept_bytes 128 a.bytes a.len h) };
}

impl ChunkBytes {
    /// These bytes, and `None` exactly where they are more than 128.
    pub fn new(bytes: &[u8]) -> Option<ChunkBytes>
        ensures some { IsSome result ↔ (length bytes.now ≤ 128) }
        ensures value { IfSome result (λ kept. kept ≡ bytes.now) }
    {
        if bytes.len() > CHUNK_BYTES {
            return None;
        }
        let mut places = [0; 128];
        places[..bytes.len()].copy_from_slice(bytes);
        Some(ChunkBytes {
            bytes: places,
            len: bytes.len() as u8,
        })
    }

    /// The bytes.
    pub fn as_slice(&self) -> &[u8]
        ensures value { result.now ≡ self.now }
        ensures short { length self.now ≤ 128 }
    {
        &self.bytes[..self.len as usize]
    }
}

impl PartialEq for ChunkBytes {
    ghost use Rattle.std.specs.Prelude.{◌==◌};
    ghost use Rattle.std.proofs.Common.{rules};
    ghost use Rattle.std.specs.Cmp.Rules.{comparing};
    ghost use lib.Pointwise.{pointwise};

    ghost eq = { pointwise ◌==◌ };

    ghost laws = { Prim.search (comparing, rules) };

    fn eq(&self, other: &ChunkBytes) -> bool
        ensures value { result ≡ pointwise ◌==◌ self.now other.now }
        ensures same { IsTrue result ↔ (self.now ≡ other.now) }
    {
        self.as_slice() == other.as_slice()
    }
}

impl Eq for ChunkBytes {
    ghost use Rattle.std.proofs.Common.{rules};
    ghost use Rattle.std.specs.Cmp.Rules.{comparing};

    ghost laws = { Prim.search (comparing, rules) };
}
