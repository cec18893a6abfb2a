// The calls on a state that is kept in place, as the programs make them. Each is the state's own (`state::calls`), and says beside the
// exact answer what it comes to for the bytes joined so far. (Always inlined: else the byte loop takes 2% more instructions.)
ghost use Rattle.state.specs.Piece.{checked, finished};
ghost use Rattle.sef.specs.Promises.{Checks, Finishes, Reports};

use state::State;
use state::answers::{Answer, FinalAnswer, ReportAnswer};

// A piece of the file: the answer after it.
#[inline(always)]
pub fn check(state: &mut State, piece: &[u8]) -> Answer
    ensures { Checks state.old piece.now (checked result state.new) }
{
    state.check(piece)
}

// The end of the file: the final answer.
#[inline(always)]
pub fn finish(state: &mut State) -> FinalAnswer
    ensures { Finishes state.old (finished result state.new) }
{
    state.finish()
}

// The counts of the lines ended so far, in row order, into the lent buffer and no further; or a refusal, and nothing is written.
#[inline(always)]
pub fn report(state: &State, counts: &mut [u64]) -> ReportAnswer
    ensures { Reports state.now counts.old result counts.new }
{
    state.report(counts)
}
