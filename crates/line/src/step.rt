// One byte: the line at hand goes on, or a rule is broken in one of its fields.
ghost use Rattle.std.specs.Prelude.{◌≡◌, ◌+◌, ◌%◌, ◌≤◌, ◌<◌, eqb, IfSome, OnErr};
ghost use Rattle.layout.specs.Rows.{row_count, none, most_fields};
ghost use Rattle.layout.specs.Packed.{some_but, number_of, kind_number, size_unit, count_class};
ghost use Rattle.layout.specs.Pick.{pick};
ghost use Rattle.layout.specs.Kinds.{kind};
ghost use Rattle.rules.specs.Numbers.{rule_number, broken};
ghost use Rattle.rules.specs.Rules.{byte_limit};
ghost use Rattle.line.specs.Machine.{Below, Broken, step_said, word_row, code_bar_of, due_of, states_of, says_of, asked_of};
ghost use Rattle.line.specs.Machine.{found_of, field_bar_of, control_of, past_of, start_of, position_of};
ghost use Rattle.line.specs.Tally.{Countable, step_with, kept_after};

use crate::line::Line;
use crate::order::{ROW_9900, ROW_9999, WITH_DATA, WITHOUT_DATA, misplaced, stands};
use crate::statements::{NUMBER_UNIT, number_of};
use crate::tally::Tally;
use field::bytes::BAR;
use field::fault::fault;
use layout::blocks::BLOCKS;
use layout::codes::row_of_code;
use layout::kinds::{CODE, Class, DATE, Kind, NO_FIELD, OPENS, kind_at};
use layout::roles::block_at;
use layout::rows::{ROWS, fields_at};
use rules::{BYTE_LIMIT, Rule};

pub const CR: u8 = b'\r';

pub const LF: u8 = b'\n';

// The first byte that a field may hold.
const BLANK: u8 = b' ';

// A code's length.
const CODE_LENGTH: u64 = 4;

// The field of a 9900 line that has a code.
const CODE_FIELD: u64 = 2;

// The place of block 9 in the order of blocks.
const LAST_BLOCK: u64 = BLOCKS as u64 - 1;

// A rule is broken, and its refusal names this field, or 0 for none.
#[derive(Clone, Copy)]
pub struct Refusal {
    pub rule: Rule,
    pub field: u64,
}

// A rule is broken in no field of the line.
fn outside(rule: Rule) -> Refusal
    ensures { result ≡ record { rule = rule; field = 0 } }
{
    Refusal { rule, field: 0 }
}

// The kind of a row's field n. Past the row's last there is none, though the table goes on with the next row's kinds.
#[tactic(auto, unfolding(layout::specs::Packed::number_of, layout::specs::Packed::kind_number), using(crate::proofs::RowLaws::past_none))]
pub fn kind_of(r: usize, n: u64) -> Kind
    requires { (r ≤ row_count) × (2 ≤ n) }
    ensures { number_of result ≡ kind_number (kind r n) }
{
    if fields_at(r) < n {
        return NO_FIELD;
    }
    kind_at(r, n as usize)
}

impl Line {
    // A rule is broken in the field at hand.
    fn refusal(&self, rule: Rule) -> Refusal
        ensures { result ≡ record { rule = rule; field = self.now.hot.bars } }
    {
        Refusal {
            rule,
            field: self.hot.bars,
        }
    }

    // Whether the field at hand has just this kind.
    fn is_of(&self, kind: Kind) -> bool
        ensures { result ≡ eqb self.now.hot.kind (number_of kind) }
    {
        self.kind() == kind
    }

    // The row of the code at hand.
    #[tactic(auto, unfolding(crate::specs::Machine::word_row), using(layout::proofs::CodeLaws::row_of_code_le))]
    fn word_row(&self) -> Option<usize>
        ensures row { result ≡ some_but none (word_row self.now.hot) }
        ensures known { IfSome result (λ r. r < row_count) }
    {
        if self.hot.field.length == CODE_LENGTH {
            return row_of_code(self.hot.field.value);
        }
        None
    }

    // The bar after field 1.
    #[tactic(auto, unfolding(crate::specs::Machine::code_bar_of), using(layout::proofs::RowLaws::fields_two, layout::proofs::RowLaws::fields_most, layout::proofs::KindLaws::kind_most))]
    fn code_bar(&mut self, tally: &Tally) -> Result<(), Refusal>
        requires { (self.old.hot.bytes < byte_limit) × (self.old.hot.bars ≡ 1) }
        ensures step { step_said result self.new.hot ≡ code_bar_of self.old.hot tally.now.stamps tally.now.occurrences (word_row self.old.hot) }
        ensures refused { OnErr result (self.new ≡ self.old) }
    {
        let Some(r) = self.word_row() else {
            return Err(self.refusal(Rule::NoSuchRow));
        };
        if !stands(self.hot.last, r) {
            return Err(self.refusal(Rule::OutOfPlace));
        }
        if misplaced(self.hot.says, r) {
            return Err(self.refusal(Rule::Misplaced));
        }
        if !tally.has_room(r) {
            return Err(self.refusal(Rule::OneTooMany));
        }
        self.begin(r, fields_at(r), kind_of(r, 2), 0);
        Ok(())
    }

    // What field 2 of a closing, or of 9999, must state. Block 9 counts 9999 ahead.
    #[tactic(auto, unfolding(crate::specs::Machine::due_of), using(crate::proofs::RowLaws::block_9999))]
    fn due(&self) -> u64
        ensures { result ≡ due_of self.now.hot }
    {
        if self.hot.row == ROW_9999 {
            return self.hot.lines + 1;
        }
        if block_at(self.hot.row) == LAST_BLOCK {
            return self.hot.since + 2;
        }
        self.hot.since + 1
    }

    // What is due of a count; of any other field nothing is, and `fault` does not look at the 0.
    #[tactic(auto, using(layout::proofs::NumberLaws::class_is))]
    fn due_of_count(&self) -> u64
        ensures { result ≡ pick (eqb (self.now.hot.kind % size_unit) count_class) (due_of self.now.hot) 0 }
    {
        match self.kind().class {
            Class::Count => self.due(),
            _ => 0,
        }
    }

    // The rule that the field at hand breaks: by itself, or by the lines before. Of a pair of dates these are asked, and at field 2
    // of 9999 all that is stated must be true.
    #[tactic(auto, unfolding(crate::specs::Machine::found_of, crate::specs::Machine::asked_rule_of, layout::specs::Packed::number_of, layout::specs::Packed::kind_number), using(crate::proofs::KindLaws::counts_alone))]
    fn found(&self, tally: &Tally) -> Result<(), Rule>
        requires begun { 1 ≤ self.now.hot.bars }
        requires below { Below (byte_limit + 1) tally.now.counts }
        ensures { broken result ≡ found_of self.now.hot (asked_of self.now.hot tally.now.counts tally.now.stated tally.now.pairs) }
    {
        fault(self.kind(), self.hot.field, self.due_of_count())?;
        if self.is_of(DATE) {
            return tally.pair_fault(self);
        }
        if self.hot.row == ROW_9999 && !tally.all_hold() {
            return Err(Rule::UntrueStatement);
        }
        Ok(())
    }

    // What a 9900 line says once field 2, or a later one, has ended.
    #[tactic(auto, unfolding(crate::specs::Machine::states_of), using(crate::proofs::StatementLaws::number_most))]
    fn stated(&self) -> u64
        ensures { result ≡ states_of self.now.hot }
    {
        if self.hot.bars == CODE_FIELD {
            return self.word_row().unwrap_or(ROWS) as u64;
        }
        self.hot.says % NUMBER_UNIT + NUMBER_UNIT * number_of(self.hot.field)
    }

    // Field 2 of an opening says whether data is to come, a period's line its dates, a 9900 line how often a code occurs.
    #[tactic(auto, unfolding(crate::specs::Machine::says_of, layout::specs::Packed::number_of, layout::specs::Packed::kind_number))]
    fn says_now(&self) -> u64
        ensures { result ≡ says_of self.now.hot }
    {
        if self.is_of(OPENS) {
            return if self.hot.field.value == 0 {
                WITH_DATA
            } else {
                WITHOUT_DATA
            };
        }
        if self.is_of(DATE) {
            return self.dated();
        }
        if self.hot.row == ROW_9900 {
            return self.stated();
        }
        self.hot.says
    }

    // The bar after a later field.
    #[tactic(auto, unfolding(crate::specs::Machine::field_bar_of), using(layout::proofs::KindLaws::kind_most, crate::proofs::HotRanges::says_le))]
    fn field_bar(&mut self, tally: &Tally) -> Result<(), Refusal>
        requires room { (self.old.hot.bytes < byte_limit) × (self.old.hot.bars ≤ most_fields) }
        requires late { 2 ≤ self.old.hot.bars }
        requires below { Below (byte_limit + 1) tally.now.counts }
        ensures step { step_said result self.new.hot ≡ field_bar_of self.old.hot (found_of self.old.hot (asked_of self.old.hot tally.now.counts tally.now.stated tally.now.pairs)) }
        ensures refused { OnErr result (self.new ≡ self.old) }
    {
        if let Err(rule) = self.found(tally) {
            return Err(self.refusal(rule));
        }
        let r = self.hot.row;
        self.begin(
            r,
            self.hot.fields,
            kind_of(r, self.hot.bars + 1),
            self.says_now(),
        );
        Ok(())
    }

    // A control byte in a field: where the field has no byte yet, CR and LF leave it out.
    #[tactic(auto, unfolding(crate::specs::Machine::control_of, rules::specs::Bytes::is_end_byte))]
    fn control(&self, b: u8) -> Refusal
        ensures { Broken (rule_number result.rule) result.field ≡ control_of self.now.hot b }
    {
        if self.hot.field.length == 0 && (b == CR || b == LF) {
            return self.refusal(Rule::FieldMissing);
        }
        self.refusal(Rule::ControlByte)
    }

    // A byte past the last field.
    #[tactic(auto, unfolding(crate::specs::Machine::past_of))]
    fn past(&mut self, b: u8) -> Result<(), Refusal>
        requires { self.old.hot.bytes < byte_limit }
        ensures step { step_said result self.new.hot ≡ past_of self.old.hot b }
        ensures refused { OnErr result (self.new ≡ self.old) }
    {
        if self.hot.field.length != 0 {
            if b != LF {
                return Err(outside(Rule::NoCrLf));
            }
            self.end();
            return Ok(());
        }
        if b == LF {
            return Err(outside(Rule::NoCrLf));
        }
        if b != CR {
            return Err(self.refusal(Rule::PastLastField));
        }
        self.grow(b);
        Ok(())
    }

    // A line's first byte.
    #[tactic(auto, unfolding(crate::specs::Machine::start_of, layout::specs::Packed::number_of))]
    fn first(&mut self, b: u8) -> Result<(), Refusal>
        requires { (self.old.hot.bytes < byte_limit) × (self.old.hot.bars ≡ 0) }
        ensures step { step_said result self.new.hot ≡ start_of self.old.hot b }
        ensures refused { OnErr result (self.new ≡ self.old) }
    {
        if self.hot.last == ROW_9999 {
            return Err(outside(Rule::After9999));
        }
        if b != BAR {
            return Err(outside(Rule::NotABar));
        }
        self.begin(self.hot.row, self.hot.fields, CODE, self.hot.says);
        Ok(())
    }

    // One byte, at what is kept of the lines ended. One that breaks a rule changes nothing.
    #[tactic(auto, unfolding(crate::specs::Machine::step_of, crate::specs::Machine::in_field_of, crate::specs::Machine::bar_of))]
    pub fn step(&mut self, tally: &Tally, b: u8) -> Result<(), Refusal>
        requires { Below (byte_limit + 1) tally.now.counts }
        ensures step { step_said result self.new.hot ≡ step_with self.old.hot tally.now b }
        ensures refused { OnErr result (self.new ≡ self.old) }
    {
        if BYTE_LIMIT <= self.hot.bytes {
            return Err(outside(Rule::TooLong));
        }
        if self.hot.bars == 0 {
            return self.first(b);
        }
        if self.hot.fields < self.hot.bars {
            return self.past(b);
        }
        if b == BAR {
            if self.hot.bars == 1 {
                return self.code_bar(tally);
            }
            return self.field_bar(tally);
        }
        if b < BLANK {
            return Err(self.control(b));
        }
        self.grow(b);
        Ok(())
    }

    // One byte, and what is noted of it: LF alone ends a line.
    pub fn judge(&mut self, tally: &mut Tally, b: u8) -> Result<(), Refusal>
        requires { Countable tally.old }
        ensures step { step_said result self.new.hot ≡ step_with self.old.hot tally.old b }
        ensures kept { tally.new ≡ kept_after (step_with self.old.hot tally.old b) self.old.hot b tally.old }
        ensures refused { OnErr result (self.new ≡ self.old) }
    {
        let before = *self;
        self.step(tally, b)?;
        if b == LF {
            tally.note(&before);
        }
        Ok(())
    }

    // The position that the refusal by this rule gives, told from the state before the refusing byte.
    pub fn position(&self, rule: Rule) -> u64
        ensures { result ≡ position_of self.now.hot (rule_number rule) }
    {
        self.hot.position(rule.number())
    }
}
