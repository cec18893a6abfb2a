// A batch of calls from standard input, for the comparison with the independent checker. Each command is a letter and a
// four-byte length, lowest byte first; a piece's bytes follow it. N: a new file; P: a piece; F: finish; C: report; S: a report with
// room for too few counts. Each answer is a line, with the blocks' totals after the call at its end.
#![tactic(auto)]

mod commands;
mod gathered;
mod print;

use commands::{Command, LARGEST, next_command};
use gathered::Gathered;
use layout::rows::ROWS;
use print::Line;
use sef::answers::Numbers;
use sef::{State, in_place};
use std::io::{Read, Result, Write};

// The calls of a batch: where their answers go, and the state that they leave.
#[derive(Drop)]
struct Batch<W: Write + Drop> {
    to: W,
    state: State,
}

impl<W: Write + Drop> Batch<W> {
    // An answer is written at once.
    fn answer(&mut self, unrefused: &str, numbers: Numbers, counts: &[u64]) -> Result<()> {
        let line = Line {
            unrefused,
            numbers,
            counts,
            totals: &self.state.tally.totals,
        };
        writeln!(self.to, "{line}")?;
        self.to.flush()
    }

    fn check(&mut self, piece: &[u8]) -> Result<()> {
        let said = in_place::check(&mut self.state, piece);
        self.answer("open", said.into(), &[])
    }

    fn finish(&mut self) -> Result<()> {
        let said = in_place::finish(&mut self.state);
        self.answer("accepted", said.into(), &[])
    }

    // The counts stand in the answer where the report is not refused.
    fn report(&mut self) -> Result<()> {
        let mut counts = [0u64; ROWS];
        let numbers = Numbers::from(in_place::report(&self.state, &mut counts));
        let written: &[u64] = if numbers.refusal == 0 { &counts } else { &[] };
        self.answer("counts", numbers, written)
    }

    // A report with room for one count too few.
    fn report_without_room(&mut self) -> Result<()> {
        let mut counts = [0u64; ROWS - 1];
        let said = in_place::report(&self.state, &mut counts);
        self.answer("counts", said.into(), &[])
    }

    fn obey(&mut self, command: Command<'_>) -> Result<()> {
        match command {
            Command::NewFile => {
                self.state = State::new();
                Ok(())
            }
            Command::Piece(piece) => self.check(piece),
            Command::Finish => self.finish(),
            Command::Report => self.report(),
            Command::ReportWithoutRoom => self.report_without_room(),
            Command::Nothing => Ok(()),
        }
    }
}

// The commands of the whole input. (A proved loop has to end: they are counted, up to a number that no run reaches.)
fn obey_all<R: Read, W: Write + Drop>(from: &mut R, to: W) -> Result<()> {
    let mut batch = Batch {
        to,
        state: State::new(),
    };
    let mut block = [0u8; LARGEST];
    for _ in 0..u64::MAX {
        let Some(command) = next_command(from, &mut block)? else {
            break;
        };
        batch.obey(command)?;
    }
    Ok(())
}

fn main(rt: HostRuntime) -> Result<()> {
    obey_all(&mut rt.stdin(), Gathered::new(rt.stdout()))
}
