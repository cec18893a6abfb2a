// What is kept of a field's bytes.
ghost use Rattle.std.specs.Prelude.{◌≡◌, ◌+◌, ◌<◌, ◌^◌, ◌≤◌};
ghost use Rattle.layout.specs.Packed.{number_of};
ghost use Rattle.field.specs.Streaming.{FieldFit, cap, empty_field, longer, wrong_at, wrong_with, code_with, value_with, digit_with};
ghost use Rattle.field.specs.Streaming.{matches, text_with, comma_fits, decimal_with, with_byte};

pub use layout::kinds::SIZE_UNIT;
use layout::kinds::{Class, Kind};

// A bar ends a field; a comma stands before decimals.
pub const BAR: u8 = b'|';

pub const COMMA: u8 = b',';

// A code's value is its last four bytes: three of them stay as one more comes.
const THREE_BYTES: u64 = 16_777_216;

const ONE_BYTE: u64 = 256;

// Of a number with decimals the value is 0 before the comma, and then this, and one more for each decimal still to come.
pub const NONE_TO_COME: u64 = 1;

// A value is kept up to this, just above that of 14 digits, those of a CNPJ, and well above the largest number of lines.
pub const CAP: u64 = 100_000_000_000_000;

// How many bytes, the position of the first wrong one, from 1, or 0, and the value, by the field's kind.
// Its ranges, FieldFit, are asked by the methods and no ghost field, and 0 is "none wrong": a state holds any numbers, and `check`
// (Checks) answers of all.
#[derive(Clone, Copy, PartialEq, Eq)]
pub struct Field {
    pub length: u64,
    pub wrong: u64,
    pub value: u64,
}

// Before the first byte.
pub fn start() -> Field
    ensures { result ≡ empty_field }
{
    Field {
        length: 0,
        wrong: 0,
        value: 0,
    }
}

// One more digit; past the cap the value stays there, and never comes back below it.
#[tactic(auto, unfolding(crate::specs::Streaming::value_with))]
fn value_with(v: u64, b: u8) -> u64
    requires { v ≤ cap }
    ensures { result ≡ value_with v b }
{
    let digit = b.saturating_sub(b'0') as u64;
    (v * 10 + digit).min(CAP)
}

// Whether a fixed text has the byte at this place.
#[tactic(auto, unfolding(crate::specs::Streaming::matches))]
fn has_at(text: &[u8], at: u64, b: u8) -> bool
    ensures { result ≡ matches text.now at b }
{
    text.get(at as usize) == Some(&b)
}

impl Field {
    // The position of the first wrong byte, if the next one is wrong or missing: its own, unless one was wrong before.
    #[tactic(auto, unfolding(crate::specs::Streaming::wrong_at))]
    pub fn wrong_at(self) -> u64
        requires { FieldFit self }
        ensures { result ≡ wrong_at self }
    {
        match self.wrong {
            0 => self.length + 1,
            wrong => wrong,
        }
    }

    // One more byte, if it is right there.
    fn add(&mut self, is_right: bool)
        requires { FieldFit self.old }
        ensures { self.new ≡ longer self.old (wrong_with is_right self.old) self.old.value }
    {
        if !is_right {
            self.wrong = self.wrong_at();
        }
        self.length += 1;
    }

    fn add_to_code(&mut self, b: u8)
        requires { FieldFit self.old }
        ensures { self.new ≡ code_with self.old b }
    {
        self.value = self.value % THREE_BYTES * ONE_BYTE + b as u64;
        self.add(true);
    }

    #[tactic(auto, unfolding(crate::specs::Streaming::value_with, crate::specs::Streaming::digit_with, crate::specs::Streaming::wrong_at, rules::specs::Fields::is_digit))]
    fn add_digit(&mut self, b: u8)
        requires { FieldFit self.old }
        ensures { self.new ≡ digit_with self.old b }
    {
        self.value = value_with(self.value, b);
        self.add(b.is_ascii_digit());
    }

    #[tactic(auto, unfolding(crate::specs::Streaming::text_with))]
    fn add_to_fixed(&mut self, text: &[u8], b: u8)
        requires { FieldFit self.old }
        ensures { self.new ≡ text_with text.now self.old b }
    {
        self.add(has_at(text, self.length, b));
    }

    // A comma stands once, after one digit or more.
    #[tactic(auto, unfolding(crate::specs::Streaming::comma_fits))]
    fn comma_fits(self, b: u8) -> bool
        ensures { result ≡ comma_fits self b }
    {
        b == COMMA && self.value == 0 && 0 < self.length
    }

    // A digit of a number with so many decimals stands unless all of them have come. Before the comma the value stays 0.
    #[tactic(auto, unfolding(crate::specs::Streaming::decimal_with, crate::specs::Streaming::digit_fits, rules::specs::Fields::is_digit))]
    fn add_decimal(&mut self, decimals: u64, b: u8)
        requires fit { FieldFit self.old }
        requires few { decimals + 1 < 2 ^ 64 }
        ensures { self.new ≡ decimal_with decimals self.old b }
    {
        if b.is_ascii_digit() && self.value != NONE_TO_COME {
            self.value = self.value.saturating_sub(1);
            return self.add(true);
        }
        if self.comma_fits(b) {
            self.add(true);
            self.value = decimals + NONE_TO_COME;
            return;
        }
        self.add(false);
    }

    // One more byte of a field of this kind; of a text only the length is asked.
    #[tactic(auto, using(crate::proofs::KindLaws::byte_at), unfolding(layout::specs::Text::bytes, layout::specs::Packed::number_of))]
    pub fn add_byte(&mut self, kind: Kind, b: u8)
        requires fit { FieldFit self.old }
        requires kind { number_of kind < 2 ^ 64 }
        ensures { self.new ≡ with_byte (number_of kind) self.old b }
    {
        match kind.class {
            Class::Text => self.add(true),
            Class::NoField | Class::Code | Class::LineCode => self.add_to_code(b),
            Class::Decimals => self.add_decimal(kind.size, b),
            Class::Lfpd => self.add_to_fixed(b"LFPD", b),
            Class::Brasil => self.add_to_fixed(b"Brasil", b),
            _ => self.add_digit(b),
        }
    }
}
