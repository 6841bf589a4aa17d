//! The first place of a byte.
ghost use Rattle.std.specs.Prelude.{◌≡◌, ◌≢◌, ◌<◌, ◌≤◌, ◌+◌, ◌==◌, ◌++◌, ◌∷◌, ◌↔◌, ℕ, All, IfSome, IfNone, IsTrue, position, length, slice_index, take, drop};

/// How many bytes are looked at together.
const PIECE: usize = 8;

/// The index of the first such byte: the first byte of all, as in an empty line, or one behind others, which are passed over by pieces.
#[inline(always)]
pub(crate) fn first_of(bytes: &[u8], byte: u8) -> Option<usize>
    ensures position { result ≡ position (λ b. b == byte) bytes.now }
    ensures bound { IfSome result (λ at. at < length bytes.now) }
    ensures split { IfSome result (λ at. bytes.now ≡ take at bytes.now ++ byte ∷ drop (at + 1) bytes.now) }
    ensures first { IfSome result (λ at. All (λ b. b ≢ byte) (take at bytes.now)) }
    ensures absent { IfNone result (All (λ b. b ≢ byte) bytes.now) }
{
    match bytes {
        [first, ..] if *first == byte => Some(0),
        _ => first_from(bytes, free_pieces(bytes, byte), byte),
    }
}

/// The index of the first such byte, where the bytes before `start` are others.
#[inline(always)]
pub(crate) fn first_from(bytes: &[u8], start: usize, byte: u8) -> Option<usize>
    requires within { start ≤ length bytes.now }
    requires others { All (λ b. b ≢ byte) (take start bytes.now) }
    ensures position { result ≡ position (λ b. b == byte) bytes.now }
    ensures bound { IfSome result (λ at. at < length bytes.now) }
    ensures split { IfSome result (λ at. bytes.now ≡ take at bytes.now ++ byte ∷ drop (at + 1) bytes.now) }
    ensures first { IfSome result (λ at. All (λ b. b ≢ byte) (take at bytes.now)) }
    ensures there { IfSome result (λ at. slice_index bytes.now at ≡ byte) }
    ensures absent { IfNone result (All (λ b. b ≢ byte) bytes.now) }
{
    let mut at = start;
    while at < bytes.len() {
        if bytes[at] == byte {
            return Some(at);
        }
        at += 1;
    }
    None
}

/// How many bytes at the beginning are certainly others, by whole pieces.
#[inline(always)]
fn free_pieces(bytes: &[u8], byte: u8) -> usize
    ensures within { result ≤ length bytes.now }
    ensures others { All (λ b. b ≢ byte) (take result bytes.now) }
{
    let mut at = 0;
    while bytes.len() - at >= PIECE && is_free(&bytes[at..at + PIECE], byte) {
        at += PIECE;
    }
    at
}

/// Whether none of eight bytes is that one.
#[inline(always)]
fn is_free(piece: &[u8], byte: u8) -> bool
    requires { length piece.now ≡ 8 }
    ensures { IsTrue result ↔ All (λ b. b ≢ byte) piece.now }
{
    let a = (piece[0] == byte) | (piece[1] == byte) | (piece[2] == byte) | (piece[3] == byte);
    let b = (piece[4] == byte) | (piece[5] == byte) | (piece[6] == byte) | (piece[7] == byte);
    !(a | b)
}
