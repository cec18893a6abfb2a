// What is printed: a line for each number, as name=number.
use layout::blocks::letter_at;
use layout::parents::parent_at;
use layout::rows::{ROWS, code_at};
use sef::answers::Numbers;
use sef::{State, in_place};
use std::io;
use std::io::Write;

// The deepest level: no more lines are open.
const DEEPEST: usize = 6;

// A code's four bytes, as the last ones of its number.
const CODE_AT: usize = 4;

// The seven lines. The first is one text: who reads as it is written has the verdict whole.
pub fn answer<W: Write>(to: &mut W, n: Numbers) -> io::Result<()> {
    let verdict = if n.refusal == 0 {
        "result=accepted\n"
    } else {
        "result=refused\n"
    };
    to.write_all(verdict.as_bytes())?;
    writeln!(to, "refusal={}", n.refusal)?;
    writeln!(to, "line={}", n.line)?;
    writeln!(to, "field={}", n.field)?;
    writeln!(to, "byte={}", n.position)?;
    writeln!(to, "lines={}", n.lines)?;
    writeln!(to, "bytes={}", n.bytes)
}

// Of each block its lines ended.
pub fn blocks<W: Write>(to: &mut W, s: &State) -> io::Result<()> {
    for (x, lines) in s.tally.totals.iter().enumerate() {
        writeln!(to, "block {}={lines}", char::from(letter_at(x)))?;
    }
    Ok(())
}

// A number that belongs to a row. The row is named by its code, four bytes as one number, the first byte highest.
fn row<W: Write>(to: &mut W, word: &str, code: u64, n: u64) -> io::Result<()> {
    write!(to, "{word}")?;
    to.write_all(&code.to_be_bytes()[CODE_AT..])?;
    writeln!(to, "={n}")
}

// Of each row its lines ended, as a report has them.
pub fn rows<W: Write>(to: &mut W, s: &State) -> io::Result<()> {
    let mut counts = [0u64; ROWS];
    in_place::report(s, &mut counts);
    for (r, lines) in counts.iter().enumerate() {
        row(to, "row ", code_at(r), *lines)?;
    }
    Ok(())
}

// The open lines, by their number in the file: the last line ended and its ancestors up to the opening. Of an open row it is the last
// line.
pub fn open_lines<W: Write>(to: &mut W, s: &State) -> io::Result<()> {
    let mut r = s.hot.last;
    for _ in 0..DEEPEST {
        if r >= ROWS {
            break;
        }
        row(to, "open ", code_at(r), s.tally.stamps[r])?;
        r = parent_at(r);
    }
    Ok(())
}
