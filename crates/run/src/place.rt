// A place between fields or lines, with what the lines before it left: no field is half read there.
ghost use Rattle.std.specs.Prelude.{true, ◌≡◌, ◌≤◌};
ghost use Rattle.layout.specs.Rows.{row_count};
ghost use Rattle.layout.specs.Silent.{is_silent};
ghost use Rattle.run.specs.Places.{StartsLine, StartsField, Begins, index_of, place_of, line_start, hot_at, Placed};

use layout::kinds::start_at;
use layout::rows::{ROWS, fields_at};
use layout::silent::silent_at;
use line::hot::{CODE_KIND, CODE_ONLY, Hot};
use line::line::Line;
use line::order::ROW_9999;
use line::step::kind_of;

// Rows and what a line says are numbers, as in Hot. That it is `Placed` stands in clauses: a ghost field can cite no definition that
// names its struct.
#[derive(Clone, Copy)]
pub struct Place {
    pub at: usize,
    // of the lines before, as in Hot
    pub lines: u64,
    pub last: usize,
    pub since: u64,
    pub says: u64,
    // the row of the line at hand; at a line's start there is none
    pub row: usize,
    // of the field that starts, in the table of kinds
    pub index: usize,
}

// Whether the lines of a row say nothing.
#[tactic(auto, using(crate::proofs::PlaceLaws::silent_known))]
pub fn is_silent(r: usize) -> bool
    requires { r ≤ row_count }
    ensures { result ≡ is_silent r }
{
    silent_at(r).is_some()
}

// Whether a line can start here, and the state is that of such a place.
fn starts_line(h: Hot) -> bool
    ensures { result ≡ true → StartsLine h }
{
    h.last != ROW_9999 && h.row == ROWS && h.fields == CODE_ONLY && h.kind == CODE_KIND
}

// Whether a field after the first starts here, in a silent row, and the state agrees with the tables.
#[tactic(auto, using(layout::proofs::KindLaws::kind_most))]
fn starts_field(line: &Line) -> bool
    ensures { result ≡ true → StartsField line.now.hot }
{
    let h = line.hot;
    2 <= h.bars
        && h.fields == fields_at(h.row)
        && h.bars <= h.fields
        && is_silent(h.row)
        && kind_of(h.row, h.bars).number() == h.kind
}

// Whether the state is that of a place: nothing has come of the field at hand.
pub fn begins(line: &Line) -> bool
    ensures { result ≡ true → Begins line.now.hot }
{
    let h = line.hot;
    if h.field != field::bytes::start() {
        return false;
    }
    if h.bars == 0 {
        return starts_line(h);
    }
    starts_field(line)
}

// Where the kind of the field at hand stands in the table of kinds.
#[tactic(auto, unfolding(crate::specs::Places::index_of))]
fn index_of(line: &Line) -> usize
    ensures { result ≡ index_of line.now.hot }
{
    let h = line.hot;
    if h.bars == 0 {
        return 0;
    }
    start_at(h.row) + (h.bars as usize - 1)
}

impl Place {
    // The place of a line, at a byte of the piece.
    pub fn of(line: &Line, at: usize) -> Place
        ensures { result ≡ place_of line.now.hot at }
    {
        let h = line.hot;
        Place {
            at,
            lines: h.lines,
            last: h.last,
            since: h.since,
            says: h.says,
            row: h.row,
            index: index_of(line),
        }
    }

    // The state at a line's start, so many bytes on.
    fn line_start(self, bytes: u64) -> Hot
        ensures { result ≡ line_start self bytes }
    {
        Hot {
            lines: self.lines,
            bytes,
            last: self.last,
            since: self.since,
            says: self.says,
            bars: 0,
            row: ROWS,
            fields: CODE_ONLY,
            kind: CODE_KIND,
            field: field::bytes::start(),
        }
    }

    // The state at this place, so many bytes on.
    pub fn hot(self, bytes: u64) -> Hot
        requires { Placed self }
        ensures { result ≡ hot_at self bytes }
    {
        let start = self.line_start(bytes);
        if self.row == ROWS {
            return start;
        }
        let bars = (self.index - start_at(self.row)) as u64 + 1;
        Hot {
            bars,
            row: self.row,
            fields: fields_at(self.row),
            kind: kind_of(self.row, bars).number(),
            ..start
        }
    }
}
