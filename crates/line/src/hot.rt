// What changes with each byte: numbers of one width, apart from the arrays that only the end of a line changes.
ghost use Rattle.std.specs.Prelude.{◌≡◌, ◌<◌, ◌^◌};
ghost use Rattle.layout.specs.Packed.{number_of};
ghost use Rattle.line.specs.Machine.{HotFit, grown_of, moved_of, since_of, ended_of, position_of};

use field::bytes::Field;
use layout::kinds::{Class, Kind};
use layout::roles::is_closing;
use layout::rows::ROWS;
use rules::Rule;

// The number of field 1's kind, and how many fields a line has before its row is known.
pub const CODE_KIND: u64 = Class::Code as u64;

pub const CODE_ONLY: u64 = 1;

// Rows, kinds and what a line says stay numbers here: `check` promises its exact answer at every state in range (`check_of`,
// `Checks.exact`), at numbers too that no call gives, so that an enum would have to hold every number.
#[derive(Clone, Copy)]
pub struct Hot {
    // lines ended and bytes judged
    pub lines: u64,
    pub bytes: u64,
    // the row of the last line ended, the lines since the last closing, and what the line before says as an opening; from its code's
    // bar on, what the line at hand says
    pub last: usize,
    pub since: u64,
    pub says: u64,
    // the line at hand: its bars, its row, the row's fields, and the kind and what is kept of the field at hand
    pub bars: u64,
    pub row: usize,
    pub fields: u64,
    pub kind: u64,
    pub field: Field,
}

// What a byte makes of any numbers in range (HotFit), also where no more may come: of those that go on, a `Line` is made.
impl Hot {
    // One more byte of the field at hand.
    pub fn grow(&mut self, b: u8)
        requires { HotFit self.old }
        ensures { self.new ≡ grown_of self.old b }
    {
        self.bytes += 1;
        self.field.add_byte(Kind::from_number(self.kind), b);
    }

    // One more bar: a field of this kind begins, in a line of this row.
    pub fn begin(&mut self, row: usize, fields: u64, kind: Kind, says: u64)
        requires fit { HotFit self.old }
        requires kind { number_of kind < 2 ^ 64 }
        ensures { self.new ≡ moved_of self.old row fields (number_of kind) says }
    {
        self.bytes += 1;
        self.says = says;
        self.bars += 1;
        self.row = row;
        self.fields = fields;
        self.kind = kind.number();
        self.field = field::bytes::start();
    }

    // The lines since the last closing, once the line at hand has ended.
    #[tactic(auto, unfolding(crate::specs::Machine::since_of))]
    fn lines_since(&self) -> u64
        requires { HotFit self.now }
        ensures { result ≡ since_of self.now }
    {
        if is_closing(self.row) {
            return 0;
        }
        self.since + 1
    }

    // The line at hand ends.
    pub fn end(&mut self)
        requires { HotFit self.old }
        ensures { self.new ≡ ended_of self.old }
    {
        self.since = self.lines_since();
        self.lines += 1;
        self.bytes += 1;
        self.last = self.row;
        self.bars = 0;
        self.row = ROWS;
        self.fields = CODE_ONLY;
        self.kind = CODE_KIND;
        self.field = field::bytes::start();
    }

    // The position that the refusal by the rule of this number gives, told from the state before the refusing byte. A file has at
    // most one refusal: so it is asked there, and a step carries none. (0 for all but 2 and 10 is 02's own.)
    #[tactic(auto, unfolding(crate::specs::Machine::position_of))]
    pub fn position(&self, rule: u64) -> u64
        requires { HotFit self.now }
        ensures { result ≡ position_of self.now rule }
    {
        if rule == Rule::ControlByte.number() {
            return self.field.length + 1;
        }
        if rule == Rule::WrongCharacters.number() {
            return self.field.wrong_at();
        }
        0
    }
}
