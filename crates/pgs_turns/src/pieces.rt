//! The pieces that lines are made of: words and numbers.
ghost use Rattle.std.specs.Prelude.{◌≡◌, ◌+◌, ◌≤◌, ◌++◌, length, decimal};
ghost use Rattle.arrayvec.specs.ArrayVec.{array_vec_len};

use arrayvec::ArrayVec;
use itoa::Buffer;

/// A word.
pub(crate) fn put<const N: usize>(out: &mut ArrayVec<u8, N>, word: &[u8])
    requires { array_vec_len out.old + length word.now ≤ N }
    ensures text { out.new.items ≡ out.old.items ++ word.now }
    ensures long { array_vec_len out.new ≡ array_vec_len out.old + length word.now }
{
    let _ = out.try_extend_from_slice(word);
}

/// A word and a number behind it.
pub(crate) fn put_counted<const N: usize>(out: &mut ArrayVec<u8, N>, word: &[u8], n: u64)
    requires { array_vec_len out.old + length word.now + 20 ≤ N }
    ensures text { out.new.items ≡ out.old.items ++ (word.now ++ decimal n) }
    ensures short { array_vec_len out.new ≤ array_vec_len out.old + length word.now + 20 }
{
    put(out, word);
    put(out, Buffer::new().format(n).as_bytes());
}
