// What 9900 lines state: how often a code occurs in the whole file.
ghost use Rattle.std.specs.Prelude.{◌≡◌, ◌≤◌};
ghost use Rattle.field.specs.Streaming.{cap};
ghost use Rattle.line.specs.Machine.{number_of, joined_of};

use field::bytes::{CAP, Field};

// A 9900 line says the row of its code, and so many times one more than its number: in one number, as `Hot` and `Tally` keep it (see
// there).
pub const NUMBER_UNIT: u64 = 256;

// One more than a number that can't be true: no file has so many lines.
pub const UNTRUE: u64 = CAP + 1;

// One more than the number in the field at hand; an empty one is untrue.
#[tactic(auto, unfolding(crate::specs::Machine::number_of))]
pub fn number_of(f: Field) -> u64
    requires { f.value ≤ cap }
    ensures { result ≡ number_of f }
{
    if f.length == 0 { UNTRUE } else { f.value + 1 }
}

// What is stated of a row, with one more statement: the same again, or they can't both be true.
#[tactic(auto, unfolding(crate::specs::Machine::joined_of))]
pub fn joined(stated: u64, new: u64) -> u64
    ensures { result ≡ joined_of stated new }
{
    if stated == 0 {
        return new;
    }
    if stated == new {
        return stated;
    }
    UNTRUE
}
