// Whole lines and whole fields at once: a line's head, its fields, its end. Where something is unusual, nothing more is done, and the
// step judges it.
ghost use Rattle.std.specs.Prelude.{true, ◌≡◌, ◌+◌, ◌-◌, ◌≤◌, ◌<◌, length, IfSome};
ghost use Rattle.layout.specs.Rows.{row_count, none};
ghost use Rattle.rules.specs.Rules.{byte_limit};
ghost use Rattle.whole.specs.Whole.{longest, margin};
ghost use Rattle.layout.specs.Silent.{is_silent};
ghost use Rattle.line.specs.Tally.{Countable, Held};
ghost use Rattle.run.specs.Places.{Placed, HasCode, Follows, Headed, Fielded, EndsHere, next_line, counted_with, safe_of, Along, Onward};

use crate::place::{Place, begins, is_silent};
use field::bytes::BAR;
use layout::codes::row_of_code;
use layout::kinds::{kind_in_table, start_at};
use layout::rows::{ROWS, fields_at};
use layout::silent::silent_at;
use line::line::Line;
use line::order::{hangs, misplaced};
use line::step::{CR, LF};
use line::tally::Tally;
use rules::BYTE_LIMIT;
use whole::kind::{MARGIN, field_past};

// The bytes of a line's head: a bar, a code and a bar.
const HEAD: usize = 6;

// The row of the code between two bars.
fn row_from(s: &[u8], i: usize) -> Option<usize>
    requires { i + 6 ≤ length s.now }
    ensures { IfSome result (HasCode s.now i) }
{
    if s[i] != BAR || s[i + 5] != BAR {
        return None;
    }
    row_of_code(u32::from_be_bytes([s[i + 1], s[i + 2], s[i + 3], s[i + 4]]) as u64)
}

// Whether a line of row r can follow, and is one that says nothing.
fn follows(tally: &Tally, p: Place, r: usize) -> bool
    requires { (p.last ≤ row_count) × (r < row_count) }
    ensures { result ≡ true → Follows tally.now p.last p.says r }
{
    is_silent(r) && !misplaced(p.says, r) && hangs(p.last, r) && tally.has_room(r)
}

// Over a line's head.
fn head_past(tally: &Tally, s: &[u8], p: Place) -> Option<Place>
    requires { Placed p × (p.row ≡ none) × (p.last ≤ row_count) × (p.at + 6 ≤ length s.now) }
    ensures { IfSome result (Headed s.now tally.now p) }
{
    let row = row_from(s, p.at)?;
    if !follows(tally, p, row) {
        return None;
    }
    Some(Place {
        at: p.at + HEAD,
        says: 0,
        row,
        index: start_at(row) + 1,
        ..p
    })
}

// Over a line's head, unless the place is inside a line.
fn begun(tally: &Tally, s: &[u8], p: Place) -> Option<Place>
    requires { Placed p × (p.last ≤ row_count) × (p.at + 6 ≤ length s.now) }
    ensures { IfSome result (Headed s.now tally.now p) }
{
    if p.row != ROWS {
        return Some(p);
    }
    head_past(tally, s, p)
}

// Over whole fields, as far as they go. Behind a row's last field stands the next row's code, whose kind is never passed: so the
// number of fields is not asked here. (It is no `for`: a field starts where the one before it ended.)
fn fields_past(s: &[u8], safe: usize, p: Place) -> Place
    requires near { safe ≤ length s.now - margin }
    requires placed { Placed p × (p.row < row_count) × (p.at < safe + longest) }
    ensures { Fielded s.now safe p result }
{
    let mut at = p.at;
    let mut index = p.index;
    while at < safe {
        let Some(next) = field_past(s, at, kind_in_table(index), safe) else {
            break;
        };
        at = next;
        index += 1;
    }
    Place { at, index, ..p }
}

// Whether the line at hand ends here: past its row's last field stand CR and LF.
fn ends_here(s: &[u8], p: Place) -> bool
    requires { Placed p × (p.row < row_count) × (p.at + 2 ≤ length s.now) }
    ensures { result ≡ true → EndsHere s.now p }
{
    start_at(p.row) + fields_at(p.row) as usize <= p.index && s[p.at] == CR && s[p.at + 1] == LF
}

// The line at hand has ended, which is of a silent row.
fn count_line(tally: &mut Tally, p: Place)
    requires limit { p.lines ≤ byte_limit }
    requires silent { is_silent p.row ≡ true }
    requires below { Countable tally.old }
    ensures { tally.new ≡ counted_with tally.old p.row (p.lines + 1) }
{
    tally.count(p.row, p.lines + 1);
    if let Some(block) = silent_at(p.row) {
        tally.raise(block);
    }
}

// Over a line's end.
fn end_past(p: Place) -> Place
    requires { (p.at ≤ byte_limit) × (p.lines ≤ byte_limit) × (p.since ≤ byte_limit) }
    ensures { result ≡ next_line p }
{
    Place {
        at: p.at + 2,
        lines: p.lines + 1,
        last: p.row,
        since: p.since + 1,
        says: p.says,
        row: ROWS,
        index: 0,
    }
}

// Up to where fields are looked for: from there on a number may reach past the piece, or past the byte limit.
fn safe_of(before: u64, n: usize) -> usize
    ensures { result ≡ safe_of before n }
{
    let end = n.min(BYTE_LIMIT.saturating_sub(before) as usize);
    end.saturating_sub(MARGIN)
}

// Over whole lines, and the whole fields of the last one, as far as they go: head, fields, end. It may start inside a line.
fn lines_past(tally: &mut Tally, s: &[u8], before: u64, from: Place) -> Place
    requires { Along s.now before from tally.old from tally.old }
    ensures { Along s.now before from tally.old result tally.new }
{
    let safe = safe_of(before, s.len());
    let mut p = from;
    while p.at < safe {
        let Some(inside) = begun(tally, s, p) else {
            return p;
        };
        p = fields_past(s, safe, inside);
        if !ends_here(s, p) {
            return p;
        }
        count_line(tally, p);
        p = end_past(p);
    }
    p
}

// The line after the whole lines and fields that start here, i bytes into the piece; as it was, where none does.
pub fn lines_from(line: &mut Line, tally: &mut Tally, s: &[u8], i: usize)
    requires held { Held line.old.hot tally.old }
    requires inside { (i ≤ length s.now) × (i ≤ line.old.hot.bytes) }
    ensures { Onward s.now (line.old.hot.bytes - i) i line.old.hot tally.old line.new.hot tally.new }
{
    if !begins(line) {
        return;
    }
    let before = line.hot.bytes - i as u64;
    let p = lines_past(tally, s, before, Place::of(line, i));
    line.hot = p.hot(before + p.at as u64);
}
