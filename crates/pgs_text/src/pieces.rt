//! The pieces that a line of text is made of: words and numbers.
ghost use Rattle.std.specs.Prelude.{◌≡◌, true, ℕ, ◌+◌, ◌/◌, ◌%◌, ◌≤◌, ◌<◌, [], ◌∷◌, ◌++◌, length, codes, decimal};
ghost use Rattle.arrayvec.specs.ArrayVec.{array_vec_len};

use arrayvec::ArrayVec;
use itoa::Buffer;
use pgs_step::Name;

/// The two digits of each number below 100.
static PAIRS: [u8; 200] =
    *b"00010203040506070809101112131415161718192021222324252627282930313233343536373839404142434445464748495051525354555657585960616263646566676869707172737475767778798081828384858687888990919293949596979899";

/// True. The compiler learns by it that there is the room that the caller has shown, and looks at it once.
#[inline(always)]
pub fn has_room<const N: usize>(out: &ArrayVec<u8, N>, bytes: usize) -> bool
    requires { array_vec_len out.now + bytes ≤ N }
    ensures { result ≡ true }
{
    out.len() <= N - bytes
}

/// A word, a name and a number behind it.
#[inline(always)]
pub fn put_named<const W: usize, const N: usize>(
    out: &mut ArrayVec<u8, N>,
    word: &[u8; W],
    name: &Name,
    n: u32,
)
    requires { array_vec_len out.old + W + 53 ≤ N }
    ensures text { out.new.items ≡ out.old.items ++ (word.now ++ name.now ++ codes " " ++ decimal n) }
    ensures short { array_vec_len out.new ≤ array_vec_len out.old + W + 53 }
{
    put_word(out, word);
    put(out, name.as_slice());
    put_counted(out, b" ", n as u64);
}

/// Two words, each with a number behind it.
#[inline(always)]
pub fn put_both<const W: usize, const X: usize, const N: usize>(
    out: &mut ArrayVec<u8, N>,
    word: &[u8; W],
    n: u64,
    next: &[u8; X],
    m: u64,
)
    requires { array_vec_len out.old + W + X + 40 ≤ N }
    ensures text { out.new.items ≡ out.old.items ++ (word.now ++ decimal n ++ next.now ++ decimal m) }
    ensures short { array_vec_len out.new ≤ array_vec_len out.old + W + X + 40 }
{
    put_counted(out, word, n);
    put_counted(out, next, m);
}

/// A word and a number behind it.
#[inline(always)]
pub fn put_counted<const W: usize, const N: usize>(
    out: &mut ArrayVec<u8, N>,
    word: &[u8; W],
    n: u64,
)
    requires { array_vec_len out.old + W + 20 ≤ N }
    ensures text { out.new.items ≡ out.old.items ++ (word.now ++ decimal n) }
    ensures short { array_vec_len out.new ≤ array_vec_len out.old + W + 20 }
{
    put_word(out, word);
    put_number(out, n);
}

/// The digits of a number, which mostly is small.
#[inline(always)]
pub fn put_number<const N: usize>(out: &mut ArrayVec<u8, N>, n: u64)
    requires { array_vec_len out.old + 20 ≤ N }
    ensures text { out.new.items ≡ out.old.items ++ decimal n }
    ensures short { array_vec_len out.new ≤ array_vec_len out.old + 20 }
{
    if n < 10 {
        put_digit(out, n);
    } else {
        put_long_number(out, n);
    }
}

/// The digits of a small number, without a call.
#[inline(always)]
pub fn put_small<const N: usize>(out: &mut ArrayVec<u8, N>, n: u8)
    requires { array_vec_len out.old + 3 ≤ N }
    ensures text { out.new.items ≡ out.old.items ++ decimal n }
    ensures short { array_vec_len out.new ≤ array_vec_len out.old + 3 }
{
    let n = n as u64;
    if n < 10 {
        put_digit(out, n);
    } else if n < 100 {
        put_pair(out, n);
    } else {
        put_digit(out, n / 100);
        put_pair(out, n % 100);
    }
}

/// The digits of a number.
#[inline]
fn put_long_number<const N: usize>(out: &mut ArrayVec<u8, N>, n: u64)
    requires { array_vec_len out.old + 20 ≤ N }
    ensures text { out.new.items ≡ out.old.items ++ decimal n }
    ensures short { array_vec_len out.new ≤ array_vec_len out.old + 20 }
{
    if n < 10_000 && has_room(out, 20) {
        put_up_to_four(out, n);
    } else {
        put_longer_number(out, n);
    }
}

/// The digits of a number, which mostly has more than four.
#[inline(never)]
fn put_longer_number<const N: usize>(out: &mut ArrayVec<u8, N>, n: u64)
    requires { array_vec_len out.old + 20 ≤ N }
    ensures text { out.new.items ≡ out.old.items ++ decimal n }
    ensures short { array_vec_len out.new ≤ array_vec_len out.old + 20 }
{
    if n < 10_000 {
        put_up_to_four(out, n);
    } else if n < 1_000_000 {
        put_up_to_four(out, n / 100);
        put_pair(out, n % 100);
    } else {
        put(out, Buffer::new().format(n).as_bytes());
    }
}

/// The digits of a number of at most four.
#[inline(always)]
fn put_up_to_four<const N: usize>(out: &mut ArrayVec<u8, N>, n: u64)
    requires { (array_vec_len out.old + 4 ≤ N) × (n < 10000) }
    ensures text { out.new.items ≡ out.old.items ++ decimal n }
    ensures short { array_vec_len out.new ≤ array_vec_len out.old + 4 }
{
    if n < 100 {
        put_up_to_two(out, n);
    } else {
        put_up_to_two(out, n / 100);
        put_pair(out, n % 100);
    }
}

/// The digits of a number of at most two.
#[inline(always)]
fn put_up_to_two<const N: usize>(out: &mut ArrayVec<u8, N>, n: u64)
    requires { (array_vec_len out.old + 2 ≤ N) × (n < 100) }
    ensures text { out.new.items ≡ out.old.items ++ decimal n }
    ensures short { array_vec_len out.new ≤ array_vec_len out.old + 2 }
{
    if n < 10 {
        put_digit(out, n);
    } else {
        put_pair(out, n);
    }
}

/// Two digits.
#[inline(always)]
fn put_pair<const N: usize>(out: &mut ArrayVec<u8, N>, n: u64)
    requires { (array_vec_len out.old + 2 ≤ N) × (n < 100) }
    ensures text { out.new.items ≡ out.old.items ++ ((48 + n / 10) ∷ (48 + n % 10) ∷ []) }
    ensures len { array_vec_len out.new ≡ array_vec_len out.old + 2 }
{
    let at = n as usize * 2;
    let (tens, ones) = (PAIRS[at], PAIRS[at + 1]);
    out.push(tens);
    out.push(ones);
}

/// One digit.
#[inline(always)]
fn put_digit<const N: usize>(out: &mut ArrayVec<u8, N>, n: u64)
    requires { (array_vec_len out.old < N) × (n < 10) }
    ensures text { out.new.items ≡ out.old.items ++ decimal n }
    ensures len { array_vec_len out.new ≡ array_vec_len out.old + 1 }
{
    out.push(b'0' + n as u8);
}

/// A word whose length is known where it is written.
#[inline(always)]
pub fn put_word<const W: usize, const N: usize>(out: &mut ArrayVec<u8, N>, word: &[u8; W])
    requires { array_vec_len out.old + W ≤ N }
    ensures text { out.new.items ≡ out.old.items ++ word.now }
    ensures len { array_vec_len out.new ≡ array_vec_len out.old + W }
{
    if has_room(out, W) {
        for i in 0..W {
            out.push(word[i]);
        }
    }
}

/// Some bytes.
#[inline(always)]
pub fn put<const N: usize>(out: &mut ArrayVec<u8, N>, piece: &[u8])
    requires { array_vec_len out.old + length piece.now ≤ N }
    ensures text { out.new.items ≡ out.old.items ++ piece.now }
    ensures len { array_vec_len out.new ≡ array_vec_len out.old + length piece.now }
{
    let _ = out.try_extend_from_slice(piece);
}
