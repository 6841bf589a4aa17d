//! The buffer of a line.
ghost use Rattle.std.specs.Prelude.{◌≡◌, ◌<◌, ◌≤◌, ◌+◌, ◌↔◌, [], ◌∷◌, ◌++◌, length, take, IsTrue};
ghost use Rattle.std.specs.Bool.{OnTrue, OnFalse};

use std::marker::Model;

/// The most bytes that a line may have.
pub(crate) const LINE_BYTES: usize = 512;

/// At most 512 bytes: a line, or the front of a longer one.
#[derive(Drop)]
pub struct LineBuf {
    bytes: [u8; LINE_BYTES],
    length: usize,
}

impl Model for LineBuf {
    ghost use Rattle.std.specs.Prelude.{List, ℕ, ◌≤◌, take};

    ghost Value = { List ℕ };

    ghost view = { λ b. take b.length b.bytes };

    ghost invariant = { λ b. b.length ≤ 512 };
}

impl LineBuf {
    /// An empty buffer.
    pub fn new() -> LineBuf
        ensures { result ≡ [] }
    {
        LineBuf {
            bytes: [0; LINE_BYTES],
            length: 0,
        }
    }

    /// Appends the byte, and answers whether there was room for it.
    pub fn push(&mut self, byte: u8) -> bool
        ensures fits { IsTrue result ↔ (length self.old < 512) }
        ensures full { OnFalse result (length self.old ≡ 512) }
        ensures appended { OnTrue result (self.new ≡ self.old ++ byte ∷ []) }
        ensures unchanged { OnFalse result (self.new ≡ self.old) }
    {
        if self.length == LINE_BYTES {
            return false;
        }
        self.bytes[self.length] = byte;
        self.length += 1;
        true
    }

    /// Appends as many of the bytes as there is room for, and answers whether that were all.
    pub fn extend(&mut self, bytes: &[u8]) -> bool
        ensures fits { IsTrue result ↔ (length self.old + length bytes.now ≤ 512) }
        ensures appended { self.new ≡ take 512 (self.old ++ bytes.now) }
    {
        let count = bytes.len().min(LINE_BYTES - self.length);
        let end = self.length + count;
        self.bytes[self.length..end].copy_from_slice(&bytes[..count]);
        self.length = end;
        count == bytes.len()
    }

    /// The bytes.
    pub fn as_slice(&self) -> &[u8]
        ensures bytes { result.now ≡ self.now }
        ensures fits { length result.now ≤ 512 }
    {
        &self.bytes[..self.length]
    }

    /// Empties the buffer.
    pub fn clear(&mut self)
        ensures { self.new ≡ [] }
    {
        self.length = 0;
    }
}
