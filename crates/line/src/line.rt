// The line at hand, as a step takes it: its numbers are in their ranges.
ghost use Rattle.std.specs.Prelude.{◌≡◌, ◌≤◌, ◌<◌};
ghost use Rattle.layout.specs.Packed.{number_of, most_kind};
ghost use Rattle.layout.specs.Rows.{row_count, most_fields};
ghost use Rattle.rules.specs.Rules.{byte_limit};
ghost use Rattle.line.specs.Machine.{HotFit, most_says, grown_of, moved_of, ended_of};

use crate::hot::Hot;
use layout::kinds::Kind;

#[derive(Clone, Copy)]
pub struct Line {
    pub hot: Hot,
    pub ghost fit: { HotFit hot },
}

// What works on a byte asks in a clause that the byte limit has been asked: `step` does, and no other.
impl Line {
    pub fn of(hot: Hot) -> Line
        requires { HotFit hot }
        ensures { result.hot ≡ hot }
    {
        Line { hot }
    }

    // The kind of the field at hand.
    pub fn kind(&self) -> Kind
        ensures { number_of result ≡ self.now.hot.kind }
    {
        Kind::from_number(self.hot.kind)
    }

    // One more byte of the field at hand.
    pub(crate) fn grow(&mut self, b: u8)
        requires { self.old.hot.bytes < byte_limit }
        ensures { self.new.hot ≡ grown_of self.old.hot b }
    {
        self.hot.grow(b);
    }

    // One more bar: a field of this kind begins, in a line of this row.
    pub(crate) fn begin(&mut self, row: usize, fields: u64, kind: Kind, says: u64)
        requires room { (self.old.hot.bytes < byte_limit) × (self.old.hot.bars ≤ most_fields) }
        requires row { (row ≤ row_count) × (1 ≤ self.old.hot.bars → row < row_count) }
        requires fields { (1 ≤ fields) × (fields ≤ most_fields) }
        requires kind { number_of kind ≤ most_kind }
        requires says { says ≤ most_says }
        ensures { self.new.hot ≡ moved_of self.old.hot row fields (number_of kind) says }
    {
        self.hot.begin(row, fields, kind, says);
    }

    // The line at hand ends.
    pub(crate) fn end(&mut self)
        requires { self.old.hot.bytes < byte_limit }
        ensures { self.new.hot ≡ ended_of self.old.hot }
    {
        self.hot.end();
    }
}
