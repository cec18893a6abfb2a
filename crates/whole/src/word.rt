// Some bytes as one number, the first lowest, so that they are looked at together. A mark is the top bit of a byte.
ghost use Rattle.std.specs.Prelude.{◌≡◌, ◌+◌, ◌/◌, ◌<◌, ◌≤◌, length};
ghost use Rattle.std.specs.Int.Count.{count_trailing_zeros};
ghost use Rattle.whole.specs.Word.{word_of};

// The bytes of a word.
pub const WORD: usize = 8;

const HALF: usize = 4;

pub const TOP_BITS: u64 = 0x8080808080808080;

// Two widths, by two methods of std: a generic one would need a trait of our own.
#[tactic(auto, using(crate::proofs::WordLaws::four_word))]
pub fn four(s: &[u8], i: usize) -> u32
    requires { i + 4 ≤ length s.now }
    ensures { result ≡ word_of 4 s.now i }
{
    u32::from_le_bytes(*s[i..i + HALF].first_chunk().unwrap())
}

#[tactic(auto, using(crate::proofs::WordLaws::eight_word))]
pub fn eight(s: &[u8], i: usize) -> u64
    requires { i + 8 ≤ length s.now }
    ensures { result ≡ word_of 8 s.now i }
{
    u64::from_le_bytes(*s[i..i + WORD].first_chunk().unwrap())
}

// Which byte has the first mark.
pub fn first_of(marks: u64) -> usize
    ensures { (result ≡ count_trailing_zeros 64 marks / 8) × (result ≤ 8) }
{
    (u64::trailing_zeros(marks) / 8) as usize
}
