// The bytes of a piece: whole lines and fields at once, and what is left one byte after the other.
ghost use Rattle.std.specs.Prelude.{[], IfOk, IfErr};
ghost use Rattle.rules.specs.Numbers.{rule_number};
ghost use Rattle.line.specs.Tally.{Held};
ghost use Rattle.run.specs.Places.{Passes, Stops};

use crate::lines::lines_from;
use line::line::Line;
use line::step::Refusal;
use line::tally::Tally;

// A piece, up to the byte that breaks a rule. (It is no `for` over the bytes: a turn goes on by whole lines.)
pub fn run(line: &mut Line, tally: &mut Tally, piece: &[u8]) -> Result<(), Refusal>
    requires { Held line.old.hot tally.old }
    ensures all { IfOk result (λ done. Passes line.old.hot tally.old piece.now line.new.hot tally.new []) }
    ensures refused { IfErr result (λ e. Stops line.old.hot tally.old piece.now (rule_number e.rule) e.field line.new.hot tally.new) }
{
    let before = line.hot.bytes;
    let mut i = 0;
    while i < piece.len() {
        lines_from(line, tally, piece, i);
        i = (line.hot.bytes - before) as usize;
        if i < piece.len() {
            line.judge(tally, piece[i])?;
            i += 1;
        }
    }
    Ok(())
}
