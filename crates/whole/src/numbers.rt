// Numbers: digits alone, with decimals, dates, and those with check digits.
ghost use Rattle.std.specs.Prelude.{◌≡◌, ◌+◌, ◌*◌, ◌<◌, ◌≤◌, true, length, slice_index, IfSome};
ghost use Rattle.layout.specs.Packed.{size_unit, decimals_class};
ghost use Rattle.rules.specs.Bytes.{bar};
ghost use Rattle.whole.specs.Word.{leading};
ghost use Rattle.whole.specs.Whole.{number_at, longest, CentsPast, DigitsPast, Past};

use crate::bar::bar_past;
use crate::digits::digits_from;
use crate::word::{WORD, four};
use field::bytes::COMMA;

// A comma, two zeros and a bar as one number, the first byte lowest.
const CENTS: u64 = 0x7c30302c;

// Its bits that any two digits have there: all but their low halves.
const FIXED: u64 = 0xfff0f0ff;

// So much is added to both digits: those bits stay as they are up to 9.
const SIX_EACH: u64 = 0x00060600;

// Past two decimals, whose comma should stand at c, and their bar: four bytes are looked at as one number.
fn cents_past(s: &[u8], c: usize) -> Option<usize>
    requires { c + 4 ≤ length s.now }
    ensures { IfSome result (CentsPast s.now c) }
{
    let x = u64::from(four(s, c));
    if (((x ^ CENTS) | ((x + SIX_EACH) ^ CENTS)) & FIXED) != 0 {
        return None;
    }
    Some(c + 4)
}

// Past the k digits from i on and their bar, if there are as many as there should be.
fn exactly(s: &[u8], i: usize, k: usize, size: usize) -> Option<usize>
    requires { i + k < length s.now }
    ensures { IfSome result (λ past. (past ≡ i + k + 1) × (slice_index s.now (i + k) ≡ bar) × (k ≡ size)) }
{
    if k != size {
        return None;
    }
    bar_past(s, i + k)
}

// A number with so many decimals, 8 at most, and at most 8 digits before them: 16 behind a comma would reach past `longest`, so it is no
// one function with `exact_past`.
#[tactic(auto, using(crate::proofs::NumberLaws::decimal_past))]
pub fn decimal_past(s: &[u8], i: usize, size: usize) -> Option<usize>
    requires { i + longest ≤ length s.now }
    ensures { IfSome result (Past (decimals_class + size_unit * size) s.now i (i + longest)) }
{
    let c = i + digits_from(s, i);
    if c == i || s[c] != COMMA {
        return None;
    }
    exactly(s, c + 1, digits_from(s, c + 1), size)
}

// How many digits stand here, at most 16.
fn many_digits_from(s: &[u8], i: usize) -> usize
    requires { i + 16 ≤ length s.now }
    ensures counted { result ≡ leading 16 s.now i }
    ensures few { result ≤ 16 }
{
    let k = digits_from(s, i);
    if k < WORD {
        return k;
    }
    WORD + digits_from(s, i + WORD)
}

// An amount with two decimals and at most 16 digits before them.
#[tactic(auto, using(crate::proofs::NumberLaws::amount_past))]
pub fn amount_past(s: &[u8], i: usize) -> Option<usize>
    requires { i + longest ≤ length s.now }
    ensures { IfSome result (Past (decimals_class + size_unit * 2) s.now i (i + longest)) }
{
    let k = many_digits_from(s, i);
    if k == 0 {
        return None;
    }
    cents_past(s, i + k)
}

// Exactly so many digits, at most 16.
pub fn exact_past(s: &[u8], i: usize, size: usize) -> Option<usize>
    requires { i + longest ≤ length s.now }
    ensures { IfSome result (DigitsPast s.now i size) }
{
    exactly(s, i, many_digits_from(s, i), size)
}

// Digits, at most 16.
pub fn any_past(s: &[u8], i: usize) -> Option<usize>
    requires { i + longest ≤ length s.now }
    ensures { IfSome result (DigitsPast s.now i (leading 16 s.now i)) }
{
    bar_past(s, i + many_digits_from(s, i))
}

// The number that n digits stand for.
#[tactic(auto, using(crate::proofs::NumberLaws::passed_small, crate::proofs::NumberLaws::taken_digit), unfolding(crate::specs::Whole::number_at))]
fn number_at(s: &[u8], i: usize, n: usize) -> u64
    requires { (n ≤ 14) × (i + n ≤ length s.now) × (n ≤ leading 16 s.now i) }
    ensures { result ≡ number_at n s.now i }
{
    let mut v = 0;
    for &b in &s[i..i + n] {
        v = v * 10 + u64::from(b - b'0');
    }
    v
}

// Exactly so many digits, whose number passes a check.
pub fn checked_past<F: Fn(u64) -> bool>(
    s: &[u8],
    i: usize,
    size: usize,
    is_right: F,
) -> Option<usize>
    requires { (size ≤ 14) × (i + longest ≤ length s.now) × F.IsAlwaysCallable is_right }
    ensures { IfSome result (λ past. DigitsPast s.now i size past × F.post is_right (number_at size s.now i) true) }
{
    if many_digits_from(s, i) != size || !is_right(number_at(s, i, size)) {
        return None;
    }
    bar_past(s, i + size)
}
