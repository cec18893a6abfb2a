// Standard input to seven lines: the checker's final answer; with --blocks a line for each block follows, with its lines ended, and
// with --report one for each open line and for each row too. With --pieces the input is handed over in pieces of so many bytes at
// most, 1 to 65536. Everything that matters is in `sef`.
#![tactic(auto)]

mod print;
mod words;

ghost use Rattle.std.specs.Prelude.{IfOk, length, ◌≤◌};

use sef::{State, in_place};
use std::io;
use std::io::{Read, Write};
use words::{Detail, LARGEST, Wanted};

// The answer, and the lines of the state that are asked for beside it.
fn finish<W: Write>(to: &mut W, state: &mut State, detail: Detail) -> io::Result<()> {
    print::answer(to, in_place::finish(state).into())?;
    match detail {
        Detail::Answer => Ok(()),
        Detail::Blocks => print::blocks(to, state),
        Detail::Report => {
            print::blocks(to, state)?;
            print::open_lines(to, state)?;
            print::rows(to, state)
        }
    }
}

// Bytes of the input, at most so many, to the block's start: how many.
fn read_piece<R: Read>(from: &mut R, block: &mut [u8], size: usize) -> io::Result<usize>
    requires { size ≤ length block.old }
    ensures { IfOk result (λ n. n ≤ size) }
{
    from.read(&mut block[..size])
}

// A proved loop has to end, and nothing says that the input does: so the pieces are counted, up to a number that no run reaches.
// (Not inlined: the block then takes no stack of a call whose words are refused.)
#[inline(never)]
fn check_input<R: Read, W: Write>(from: &mut R, to: &mut W, wanted: Wanted) -> io::Result<()> {
    let mut state = State::new();
    let mut block = [0u8; LARGEST];
    for _ in 0..u64::MAX {
        let n = read_piece(from, &mut block, wanted.size)?;
        if n == 0 {
            return finish(to, &mut state, wanted.detail);
        }
        in_place::check(&mut state, &block[..n]);
    }
    Ok(())
}

fn main(rt: HostRuntime) -> io::Result<()> {
    match Wanted::of_words(&rt) {
        Some(wanted) => check_input(&mut rt.stdin(), &mut rt.stdout(), wanted),
        None => eprintln!(rt; "usage: sefcheck [--blocks | --report | --pieces BYTES]"),
    }
}
