// The answers of the calls, and document 01's number and values for each.
ghost use Rattle.std.specs.Prelude.{◌≡◌};
ghost use Rattle.state.specs.Answers.{numbers, numbers_of, said, finally_said, report_said, call_number};

use crate::State;

// The refusal's number, 0 if none; its line and field, 0 if none; the position in the field, 0 for all but 2 and 10; lines ended
// and bytes judged. (0 for none is 01's own word.)
#[derive(Clone, Copy, PartialEq, Eq)]
pub struct Numbers {
    pub refusal: u64,
    pub line: u64,
    pub field: u64,
    pub position: u64,
    pub lines: u64,
    pub bytes: u64,
}

// Three enums and not one, and two structs of an answer and a state: `said`, `finally_said`, `report_said` and the statements of
// Demands name each of them.

// The answer to a piece.
#[derive(Clone, Copy, PartialEq, Eq)]
pub enum Answer {
    // nothing is refused so far: lines ended, bytes judged
    Open(u64, u64),
    // 1 to 16, 20, 21, 23 and 24: a rule is broken
    Refused(Numbers),
    // 17: a piece after finish
    Late,
    // 19: a stored number is outside its range
    Damaged,
}

// The answer to a finish.
#[derive(Clone, Copy, PartialEq, Eq)]
pub enum FinalAnswer {
    // lines ended, bytes judged
    Accepted(u64, u64),
    // 1 to 16, 20, 21, 23 and 24: a rule is broken
    Refused(Numbers),
    // 17: a finish after finish
    Late,
    // 19: a stored number is outside its range
    Damaged,
}

// The answer to a report.
#[derive(Clone, Copy, PartialEq, Eq)]
pub enum ReportAnswer {
    // the counts are written: lines ended, bytes judged
    Written(u64, u64),
    // 18: there is room for fewer counts than rows
    NoRoom,
    // 19: a stored number is outside its range
    Damaged,
}

// What a piece gives back.
#[derive(Clone, Copy)]
pub struct Checked {
    pub answer: Answer,
    pub state: State,
}

// What a finish gives back.
#[derive(Clone, Copy)]
pub struct Finished {
    pub answer: FinalAnswer,
    pub state: State,
}

// Why a call is refused, whatever is in the file, with the number of the refusal.
#[derive(Clone, Copy)]
enum CallRefusal {
    Late = 17,
    NoRoom = 18,
    Damaged = 19,
}

const NOTHING: Numbers = Numbers {
    refusal: 0,
    line: 0,
    field: 0,
    position: 0,
    lines: 0,
    bytes: 0,
};

impl Numbers {
    // Nothing is refused.
    fn unrefused(lines: u64, bytes: u64) -> Numbers
        ensures { result ≡ numbers 0 0 0 0 lines bytes }
    {
        Numbers {
            lines,
            bytes,
            ..NOTHING
        }
    }

    // A call is refused, and no line of the file: all but the number is 0.
    fn of_call(refusal: CallRefusal) -> Numbers
        ensures { result ≡ numbers (call_number refusal) 0 0 0 0 0 }
    {
        Numbers {
            refusal: refusal as u64,
            ..NOTHING
        }
    }
}

impl From<Answer> for Numbers {
    ghost from_gives = { λ answer n. n ≡ numbers_of (said answer) };

    #[tactic(auto, unfolding(crate::specs::Answers::numbers_of, crate::specs::Answers::said))]
    fn from(answer: Answer) -> Numbers {
        match answer {
            Answer::Open(lines, bytes) => Numbers::unrefused(lines, bytes),
            Answer::Refused(n) => n,
            Answer::Late => Numbers::of_call(CallRefusal::Late),
            Answer::Damaged => Numbers::of_call(CallRefusal::Damaged),
        }
    }
}

impl From<FinalAnswer> for Numbers {
    ghost from_gives = { λ answer n. n ≡ numbers_of (finally_said answer) };

    #[tactic(auto, unfolding(crate::specs::Answers::numbers_of, crate::specs::Answers::finally_said))]
    fn from(answer: FinalAnswer) -> Numbers {
        match answer {
            FinalAnswer::Accepted(lines, bytes) => Numbers::unrefused(lines, bytes),
            FinalAnswer::Refused(n) => n,
            FinalAnswer::Late => Numbers::of_call(CallRefusal::Late),
            FinalAnswer::Damaged => Numbers::of_call(CallRefusal::Damaged),
        }
    }
}

impl From<ReportAnswer> for Numbers {
    ghost from_gives = { λ answer n. n ≡ report_said answer };

    #[tactic(auto, unfolding(crate::specs::Answers::report_said))]
    fn from(answer: ReportAnswer) -> Numbers {
        match answer {
            ReportAnswer::Written(lines, bytes) => Numbers::unrefused(lines, bytes),
            ReportAnswer::NoRoom => Numbers::of_call(CallRefusal::NoRoom),
            ReportAnswer::Damaged => Numbers::of_call(CallRefusal::Damaged),
        }
    }
}

// These three stand beside `From` for callers that name them: README says that each answer has such a function.

// The numbers of the answer to a piece.
pub fn answer_numbers(a: Answer) -> Numbers
    ensures { result ≡ numbers_of (said a) }
{
    a.into()
}

// The numbers of the answer to a finish.
pub fn final_numbers(a: FinalAnswer) -> Numbers
    ensures { result ≡ numbers_of (finally_said a) }
{
    a.into()
}

// The numbers of the answer to a report.
pub fn report_numbers(a: ReportAnswer) -> Numbers
    ensures { result ≡ report_said a }
{
    a.into()
}
