// What the bar after a field finds: the rule that the field breaks by itself.
ghost use Rattle.std.specs.Prelude.{◌≡◌, ltb};
ghost use Rattle.layout.specs.Pick.{pick};
ghost use Rattle.layout.specs.Packed.{class_number, number_of};
ghost use Rattle.rules.specs.Numbers.{broken, rule_number};
ghost use Rattle.field.specs.Streaming.{empty_fault, right_form, right_size, content_fault, number_fault, is_fixed, fault_of};

use crate::bytes::{Field, NONE_TO_COME};
use crate::check_digits::{is_cnpj, is_cpf};
use crate::date::is_date;
use layout::kinds::{Class, Kind};
use rules::Rule;

// What holds, or else breaks the rule.
fn ensure(holds: bool, rule: Rule) -> Result<(), Rule>
    ensures { broken result ≡ pick holds 0 (rule_number rule) }
{
    if holds { Ok(()) } else { Err(rule) }
}

// Of an empty number: a count and field 2 of an opening must hold something.
#[tactic(auto, unfolding(crate::specs::Streaming::empty_fault))]
fn empty_fault(class: Class) -> Result<(), Rule>
    ensures { broken result ≡ empty_fault (class_number class) }
{
    match class {
        Class::Opens => Err(Rule::WrongContent),
        Class::Count => Err(Rule::UntrueCount),
        _ => Ok(()),
    }
}

// Of a number with decimals all of them have come.
#[tactic(auto, unfolding(crate::specs::Streaming::right_form))]
fn right_form(class: Class, f: Field) -> bool
    ensures { result ≡ right_form (class_number class) f }
{
    match class {
        Class::Decimals => f.wrong == 0 && f.value == NONE_TO_COME,
        _ => f.wrong == 0,
    }
}

// Of most numbers the size is asked.
#[tactic(auto, unfolding(crate::specs::Streaming::right_size, crate::specs::Streaming::is_exact))]
fn right_size(kind: Kind, length: u64) -> bool
    ensures { result ≡ right_size (class_number kind.class) kind.size length }
{
    match kind.class {
        Class::Number | Class::Decimals | Class::Count => true,
        _ => length == kind.size,
    }
}

#[tactic(auto, unfolding(crate::specs::Streaming::content_fault, crate::specs::Streaming::digits_fault))]
fn content_fault(class: Class, value: u64, due: u64) -> Result<(), Rule>
    ensures { broken result ≡ content_fault (class_number class) value due }
{
    match class {
        Class::Date => ensure(is_date(value), Rule::WrongContent),
        Class::Opens => ensure(value <= 1, Rule::WrongContent),
        Class::Count => ensure(value == due, Rule::UntrueCount),
        Class::Cnpj => ensure(is_cnpj(value), Rule::WrongCheckDigit),
        Class::Cpf => ensure(is_cpf(value), Rule::WrongCheckDigit),
        _ => Ok(()),
    }
}

#[tactic(auto, unfolding(crate::specs::Streaming::number_fault))]
fn number_fault(kind: Kind, f: Field, due: u64) -> Result<(), Rule>
    ensures { broken result ≡ number_fault (class_number kind.class) kind.size f due }
{
    if f.length == 0 {
        return empty_fault(kind.class);
    }
    ensure(right_form(kind.class, f), Rule::WrongCharacters)?;
    ensure(right_size(kind, f.length), Rule::WrongSize)?;
    content_fault(kind.class, f.value, due)
}

// A text that is no longer than its size.
fn size_fault(size: u64, f: Field) -> Result<(), Rule>
    ensures { broken result ≡ pick (ltb size f.length) 11 0 }
{
    ensure(f.length <= size, Rule::WrongSize)
}

// A fixed text has all its bytes.
#[tactic(auto, unfolding(crate::specs::Streaming::is_fixed))]
fn fixed_fault(size: u64, f: Field) -> Result<(), Rule>
    ensures { broken result ≡ pick (ltb size f.length) 11 (pick (is_fixed f size) 0 12) }
{
    size_fault(size, f)?;
    ensure(f.wrong == 0 && f.length == size, Rule::WrongContent)
}

// The bar after a field of this kind; `due` is what a count must state.
#[tactic(auto, using(crate::proofs::KindLaws::fault_at), unfolding(crate::specs::Streaming::text_fault, crate::specs::Streaming::is_text_class))]
pub fn fault(kind: Kind, f: Field, due: u64) -> Result<(), Rule>
    ensures { broken result ≡ fault_of (number_of kind) f due }
{
    let size = kind.size;
    match kind.class {
        Class::NoField | Class::Code => Ok(()),
        Class::LineCode | Class::Text => size_fault(size, f),
        Class::Lfpd | Class::Brasil => fixed_fault(size, f),
        _ => number_fault(kind, f, due),
    }
}
