// The calls, on a state that is kept in place: an answer that refuses the call leaves it as it was.
ghost use Rattle.std.specs.Prelude.{◌≡◌, ◌+◌, ◌<◌, ◌^◌, true, false, IfSome, IsNone};

use crate::State;
use crate::answers::{Answer, FinalAnswer, Numbers, ReportAnswer};
use layout::rows::ROWS;
use line::line::Line;
use line::order::ROW_9999;
use rules::Rule;
use run::judge::run;

impl State {
    ghost use Rattle.state.specs.Piece.{checked, finished};
    ghost use Rattle.state.specs.Ranges.{ranged_of};
    ghost use Rattle.state.specs.Calls.{check_of, final_answer_of, finish_of, report_of, reported_of};

    // The line at hand, where every stored number is in its range.
    #[tactic(auto, using(crate::proofs::RangeLaws::state_fit))]
    fn line(&self) -> Option<Line>
        ensures known { IfSome result (λ line. (line.hot ≡ self.now.hot) × (ranged_of self.now ≡ true)) }
        ensures damaged { IsNone result → ranged_of self.now ≡ false }
    {
        if !self.is_ranged() {
            return None;
        }
        Some(Line::of(self.hot))
    }

    // A piece of the file: the answer after it.
    #[tactic(auto, using(crate::proofs::CallCases::checks, crate::proofs::RunLaws::run_all, crate::proofs::RunLaws::run_stops))]
    pub fn check(&mut self, piece: &[u8]) -> Answer
        ensures { checked result self.new ≡ check_of self.old piece.now }
    {
        let Some(mut line) = self.line() else {
            return Answer::Damaged;
        };
        if self.finished {
            return Answer::Late;
        }
        if self.rule != 0 {
            return Answer::Refused(self.kept());
        }
        match run(&mut line, &mut self.tally, piece) {
            Ok(()) => self.open(line.hot),
            Err(refusal) => self.stop(line.hot, refusal.rule.number(), refusal.field),
        }
    }

    // The final answer of a file whose pieces have all come. Before 9999's LF has come it is cut short.
    #[tactic(auto, unfolding(crate::specs::Calls::final_answer_of, crate::specs::Piece::kept_of))]
    fn final_answer(&self) -> FinalAnswer
        requires { self.now.hot.lines + 1 < 2 ^ 64 }
        ensures { result ≡ final_answer_of self.now }
    {
        if self.rule != 0 {
            return FinalAnswer::Refused(self.kept());
        }
        if self.hot.last == ROW_9999 {
            return FinalAnswer::Accepted(self.hot.lines, self.hot.bytes);
        }
        FinalAnswer::Refused(Numbers {
            refusal: Rule::CutShort.number(),
            field: 0,
            position: 0,
            ..self.kept()
        })
    }

    // The end of the file: the final answer.
    #[tactic(auto, using(crate::proofs::CallCases::finishes, crate::proofs::RangeLaws::state_room))]
    pub fn finish(&mut self) -> FinalAnswer
        ensures { finished result self.new ≡ finish_of self.old }
    {
        if !self.is_ranged() {
            return FinalAnswer::Damaged;
        }
        if self.finished {
            return FinalAnswer::Late;
        }
        let answer = self.final_answer();
        self.finished = true;
        answer
    }

    // The counts of the lines ended so far, in row order, into the lent buffer and no further; or a refusal, and nothing is written.
    #[tactic(auto, unfolding(crate::specs::Calls::report_of, crate::specs::Calls::reported_of))]
    pub fn report(&self, counts: &mut [u64]) -> ReportAnswer
        ensures answer { result ≡ report_of self.now counts.old }
        ensures buffer { counts.new ≡ reported_of self.now counts.old }
    {
        if !self.is_ranged() {
            return ReportAnswer::Damaged;
        }
        if counts.len() < ROWS {
            return ReportAnswer::NoRoom;
        }
        counts[..ROWS].copy_from_slice(&self.tally.counts);
        ReportAnswer::Written(self.hot.lines, self.hot.bytes)
    }
}
