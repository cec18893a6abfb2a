// What the words of the call ask for. They are read into fixed memory, since `env::args` takes the heap.
ghost use Rattle.std.specs.Prelude.{IfSome, ◌<◌, ◌≤◌};

use std::env::FillError;
use std::rt::Env;

// A piece has at most so many bytes; and so many digits say how many.
pub const LARGEST: usize = 65536;

const DIGITS: usize = 5;

// The bytes of an option: --blocks, --report and --pieces have as many.
const OPTION: usize = 8;

// How much is printed: the answer; with it the lines of the blocks; and with those the ones of a report.
#[derive(Clone, Copy)]
pub enum Detail {
    Answer,
    Blocks,
    Report,
}

#[derive(Clone, Copy)]
pub struct Wanted {
    // a piece has at most so many bytes
    pub size: usize,
    pub detail: Detail,
    ghost some: { 0 < size },
    ghost in_range: { size ≤ 65536 },
}

// Whether the call has a word at this place; the program's own name is at 0.
fn has_word(env: &impl Env, i: usize) -> bool {
    !matches!(env.arg(i, &mut []), Err(FillError::NotPresent))
}

// The size that a word says by its digits. (`parse` takes a sign before them, too.)
fn size_of(word: &[u8]) -> Option<usize>
    ensures { IfSome result (λ n. (0 < n) × (n ≤ 65536)) }
{
    let text = str::from_utf8(word).ok()?;
    if text.starts_with('+') {
        return None;
    }
    let size = text.parse().ok()?;
    (1..=LARGEST).contains(&size).then_some(size)
}

// The size that stands behind --pieces.
fn size_asked(env: &impl Env) -> Option<usize>
    ensures { IfSome result (λ n. (0 < n) × (n ≤ 65536)) }
{
    let mut word = [0u8; DIGITS];
    let length = env.arg(2, &mut word).ok()?;
    size_of(&word[..length])
}

impl Wanted {
    ghost use Rattle.std.specs.Prelude.{IfSome, ◌≡◌, ◌≢◌};
    ghost use Rattle.sefcheck.specs.declared.words.Detail.TheVariants as Detail;

    // In the largest pieces.
    fn whole(detail: Detail) -> Wanted
        ensures size { result.size ≡ 65536 }
        ensures detail { result.detail ≡ detail }
    {
        Wanted {
            size: LARGEST,
            detail,
        }
    }

    // Nothing where the words are none that the program knows.
    pub fn of_words(env: &impl Env) -> Option<Wanted>
        ensures { IfSome result (λ w. w.size ≢ 65536 → w.detail ≡ Detail.Answer) }
    {
        if !has_word(env, 1) {
            return Some(Wanted::whole(Detail::Answer));
        }
        let mut option = [0u8; OPTION];
        let length = env.arg(1, &mut option).ok()?;
        match &option[..length] {
            b"--blocks" if !has_word(env, 2) => Some(Wanted::whole(Detail::Blocks)),
            b"--report" if !has_word(env, 2) => Some(Wanted::whole(Detail::Report)),
            b"--pieces" if !has_word(env, 3) => Some(Wanted {
                size: size_asked(env)?,
                detail: Detail::Answer,
            }),
            _ => None,
        }
    }
}
