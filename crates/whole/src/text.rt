// Texts: at most so many bytes.
ghost use Rattle.std.specs.Prelude.{◌≡◌, ◌+◌, ◌-◌, ◌*◌, ◌<◌, ◌≤◌, length, IfSome};
ghost use Rattle.layout.specs.Packed.{size_unit, c_class};
ghost use Rattle.whole.specs.Word.{stop_marks};
ghost use Rattle.whole.specs.Whole.{margin, Plain, Past};

use crate::bar::bar_past;
use crate::word::{TOP_BITS, WORD, eight, first_of};

// So much is added to each byte: from 32 on it carries, and its top bit is clear up to 127.
const FROM_SPACE: u64 = 0xdfdfdfdfdfdfdfe0;

const BARS: u64 = 0x7c7c7c7c7c7c7c7c;

// The same for what is no bar, with the bits of a bar turned.
const FROM_ONE: u64 = 0xfefefefefefefeff;

// 0 if none of the eight bytes ends a field; else its first mark is that of the first byte that does.
#[tactic(auto, using(crate::proofs::WordLaws::stops_are))]
fn stops(x: u64) -> u64
    ensures { result ≡ stop_marks 8 x }
{
    let low = x.wrapping_add(FROM_SPACE) | (x ^ BARS).wrapping_add(FROM_ONE);
    low & (x ^ TOP_BITS) & TOP_BITS
}

// Past the bar of a text from i to e.
#[tactic(auto, using(crate::proofs::TextLaws::text_past))]
fn sized_past(s: &[u8], i: usize, e: usize, size: usize) -> Option<usize>
    requires { (i ≤ e) × (e < length s.now) × Plain s.now i e }
    ensures { IfSome result (Past (c_class + size_unit * size) s.now i (e + 1)) }
{
    if size < e - i {
        return None;
    }
    bar_past(s, e)
}

// Past a text of at most so many bytes. (It reads its marks itself, as `digits_from` does: one helper for both took 2.5% more
// instructions a byte.)
pub fn text_past(s: &[u8], i: usize, size: usize, safe: usize) -> Option<usize>
    requires { safe ≤ length s.now - margin }
    ensures { IfSome result (Past (c_class + size_unit * size) s.now i (safe + 8)) }
{
    for j in (i..safe).step_by(WORD) {
        let marks = stops(eight(s, j));
        if marks != 0 {
            return sized_past(s, i, j + first_of(marks), size);
        }
    }
    None
}
