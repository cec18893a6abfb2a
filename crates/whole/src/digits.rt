// How many digits stand at a place: eight bytes are looked at as one number.
ghost use Rattle.std.specs.Prelude.{◌≡◌, ◌+◌, ◌≤◌, length};
ghost use Rattle.whole.specs.Word.{other_marks, leading};

use crate::word::{TOP_BITS, WORD, eight, first_of};

// So much is added to each byte: its top bit is then set above 9, and unless it is 0 or above.
const ABOVE_NINE: u64 = 0x4646464646464646;

const FROM_ZERO: u64 = 0xcfcfcfcfcfcfcfd0;

// 0 if the eight bytes are digits; else its first mark is that of the first byte that is none.
#[tactic(auto, using(crate::proofs::WordLaws::others_are))]
pub fn others(x: u64) -> u64
    ensures { result ≡ other_marks 8 x }
{
    (x.wrapping_add(ABOVE_NINE) | x.wrapping_add(FROM_ZERO)) & TOP_BITS
}

// How many of eight bytes are digits, before the first other.
pub fn digits_from(s: &[u8], i: usize) -> usize
    requires { i + 8 ≤ length s.now }
    ensures counted { result ≡ leading 8 s.now i }
    ensures few { result ≤ 8 }
{
    let marks = others(eight(s, i));
    if marks == 0 {
        return WORD;
    }
    first_of(marks)
}
