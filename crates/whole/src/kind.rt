// A whole field, by its kind.
ghost use Rattle.std.specs.Prelude.{◌≡◌, ◌+◌, ◌-◌, ◌^◌, ◌<◌, ◌≤◌, true, length, IfSome};
ghost use Rattle.layout.specs.Packed.{number_of};
ghost use Rattle.whole.specs.Whole.{is_quick, longest, margin, Past};

use crate::numbers::{amount_past, any_past, checked_past, decimal_past, exact_past};
use crate::text::text_past;
use field::bytes::BAR;
use field::check_digits::{is_cnpj, is_cpf};
use field::date::is_date;
use layout::kinds::{Class, Kind};

// So many bytes stand behind every place at which a field is looked for: the longest number that is passed, from there on, and CR LF.
pub const MARGIN: usize = 21;

// The digits of a date, of a CNPJ and of a CPF.
const DATE_SIZE: usize = 8;

const CNPJ_SIZE: usize = 14;

const CPF_SIZE: usize = 11;

// Whether fields of this kind can be passed.
#[tactic(auto, unfolding(crate::specs::Whole::is_quick, layout::specs::Packed::number_of))]
fn is_quick(kind: Kind) -> bool
    ensures { result ≡ is_quick (number_of kind) }
{
    matches!(
        kind.class,
        Class::Text
            | Class::Digits
            | Class::Number
            | Class::Decimals
            | Class::Date
            | Class::Cnpj
            | Class::Cpf
    )
}

// An empty field, whose bar stands at i, breaks no rule of these kinds.
fn empty_past(i: usize, kind: Kind) -> Option<usize>
    requires { i + 1 < 2 ^ 64 }
    ensures { IfSome result (λ past. (past ≡ i + 1) × (is_quick (number_of kind) ≡ true)) }
{
    is_quick(kind).then_some(i + 1)
}

// A field of this kind that starts at i. What is of none of these kinds is not passed.
#[tactic(auto, using(crate::proofs::KindLaws::field_laws), unfolding(crate::specs::Whole::is_quick))]
pub fn field_past(s: &[u8], i: usize, kind: Kind, safe: usize) -> Option<usize>
    requires { (i < safe) × (safe ≤ length s.now - margin) }
    ensures { IfSome result (λ past. Past (number_of kind) s.now i (safe + longest - 1) past × (is_quick (number_of kind) ≡ true)) }
{
    if s[i] == BAR {
        return empty_past(i, kind);
    }
    let size = kind.size as usize;
    match kind.class {
        // half of a file's bytes
        Class::Decimals if size == 2 => amount_past(s, i),
        Class::Text => text_past(s, i, size, safe),
        Class::Digits => exact_past(s, i, size),
        Class::Number => any_past(s, i),
        Class::Decimals => decimal_past(s, i, size),
        Class::Date if size == DATE_SIZE => checked_past(s, i, size, is_date),
        Class::Cnpj if size == CNPJ_SIZE => checked_past(s, i, size, is_cnpj),
        Class::Cpf if size == CPF_SIZE => checked_past(s, i, size, is_cpf),
        _ => None,
    }
}
