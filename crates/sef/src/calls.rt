// The four public calls, on a state that is handed in and given back.
ghost use Rattle.std.specs.Prelude.{◌≡◌};
ghost use Rattle.state.specs.Piece.{fresh};
ghost use Rattle.sef.specs.Promises.{Checks, Finishes, Reports};

use crate::in_place;
use state::State;
use state::answers::{Checked, Finished, ReportAnswer};

// The fresh state.
pub fn start() -> State
    ensures { result ≡ fresh }
{
    State::new()
}

// A piece of the file: the answer after it, with the next state.
pub fn check(s: State, piece: &[u8]) -> Checked
    ensures { Checks s piece.now result }
{
    let mut state = s;
    let answer = in_place::check(&mut state, piece);
    Checked { answer, state }
}

// The end of the file: the final answer, with the next state.
pub fn finish(s: State) -> Finished
    ensures { Finishes s result }
{
    let mut state = s;
    let answer = in_place::finish(&mut state);
    Finished { answer, state }
}

// The counts of the lines ended so far, in row order, into the lent buffer and no further; or a refusal, and nothing is written.
pub fn report(s: State, counts: &mut [u64]) -> ReportAnswer
    ensures { Reports s counts.old result counts.new }
{
    in_place::report(&s, counts)
}
