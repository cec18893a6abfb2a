// An answer as a line.
use sef::answers::Numbers;
use std::fmt;
use std::fmt::{Display, Formatter};

// A refusal with its number and place, or the word for none; then lines ended and bytes judged, the counts that a report wrote, and
// the totals that the call left.
#[derive(Clone, Copy)]
pub struct Line<'a> {
    pub unrefused: &'a str,
    pub numbers: Numbers,
    pub counts: &'a [u64],
    pub totals: &'a [u64],
}

// Each number with a blank before it.
#[derive(Clone, Copy)]
struct Listed<'a>(&'a [u64]);

impl Display for Listed<'_> {
    fn fmt<W: fmt::Write>(&self, f: &mut Formatter<W>) -> fmt::Result {
        for n in self.0 {
            write!(f, " {n}")?;
        }
        Ok(())
    }
}

impl Display for Line<'_> {
    fn fmt<W: fmt::Write>(&self, f: &mut Formatter<W>) -> fmt::Result {
        let n = self.numbers;
        if n.refusal == 0 {
            write!(f, "{}", self.unrefused)?;
        } else {
            write!(
                f,
                "refused {} {} {} {}",
                n.refusal, n.line, n.field, n.position
            )?;
        }
        let counts = Listed(self.counts);
        let totals = Listed(self.totals);
        write!(f, " {} {}{counts} totals{totals}", n.lines, n.bytes)
    }
}
