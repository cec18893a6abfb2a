// What is kept between pieces, its ranges, and the answers of the calls.
#![tactic(auto)]

ghost use Rattle.std.specs.Prelude.{◌≡◌, ◌+◌, ◌<◌, ◌^◌};

pub mod answers;
pub mod calls;
mod ranges;

use crate::answers::{Answer, Numbers};
use field::bytes::start;
use layout::rows::ROWS;
use line::hot::{CODE_KIND, CODE_ONLY, Hot};
pub use line::tally::Tally;

// Its numbers stay numbers, and a refusal is no Option: `check` promises its exact answer at every state in range (`check_of`,
// `Checks.exact`), and 19 at every other (`ranged_of`), so that each number may be any.
#[derive(Clone, Copy)]
pub struct State {
    pub hot: Hot,
    // the rule that is broken, 0 while none is, the field that its refusal names, and the position in it
    pub rule: u64,
    pub field: u64,
    pub position: u64,
    // whether finish has been asked
    pub finished: bool,
    pub tally: Tally,
}

impl State {
    ghost use Rattle.line.specs.Machine.{HotFit};
    ghost use Rattle.state.specs.Piece.{fresh, kept_of, checked, open_of, stopped_of};

    // Before the first byte.
    #[tactic(auto, unfolding(crate::specs::Piece::fresh))]
    pub fn new() -> State
        ensures { result ≡ fresh }
    {
        State {
            hot: Hot {
                lines: 0,
                bytes: 0,
                last: ROWS,
                since: 0,
                says: 0,
                bars: 0,
                row: ROWS,
                fields: CODE_ONLY,
                kind: CODE_KIND,
                field: start(),
            },
            rule: 0,
            field: 0,
            position: 0,
            finished: false,
            tally: Tally::new(),
        }
    }

    // The refusal that is kept: it is one in the line at hand. (No From: only where there is room for a line more has a state one.)
    #[tactic(auto, unfolding(crate::specs::Piece::kept_of))]
    pub fn kept(&self) -> Numbers
        requires { self.now.hot.lines + 1 < 2 ^ 64 }
        ensures { result ≡ kept_of self.now }
    {
        Numbers {
            refusal: self.rule,
            line: self.hot.lines + 1,
            field: self.field,
            position: self.position,
            lines: self.hot.lines,
            bytes: self.hot.bytes,
        }
    }

    // A piece ends here: nothing is refused so far.
    #[tactic(auto, unfolding(crate::specs::Piece::open_of))]
    pub fn open(&mut self, hot: Hot) -> Answer
        ensures { checked result self.new ≡ open_of hot self.old.tally }
    {
        self.hot = hot;
        self.rule = 0;
        self.field = 0;
        self.position = 0;
        self.finished = false;
        Answer::Open(hot.lines, hot.bytes)
    }

    // A byte has broken the rule of this number here, in this field: it is judged, and changes nothing else.
    #[tactic(auto, unfolding(crate::specs::Piece::stopped_of, crate::specs::Piece::kept_of))]
    pub fn stop(&mut self, hot: Hot, rule: u64, field: u64) -> Answer
        requires { HotFit hot }
        ensures { checked result self.new ≡ stopped_of hot self.old.tally rule field }
    {
        self.hot = hot;
        self.hot.bytes += 1;
        self.rule = rule;
        self.field = field;
        self.position = hot.position(rule);
        self.finished = false;
        Answer::Refused(self.kept())
    }
}
