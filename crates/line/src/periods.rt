// Pairs of dates: a line of a row that has a period says both, as one number.
ghost use Rattle.std.specs.Prelude.{◌≡◌};
ghost use Rattle.line.specs.Machine.{dates_of, dated_of};

use crate::line::Line;
use layout::periods::{PERIODS, period_at};

// The different pairs of a row, and of all rows.
pub const PAIRS_MOST: usize = 64;

pub const PAIRS: usize = PAIRS_MOST * PERIODS;

// Above every date: eight digits. (Dates are one number, as `Hot` keeps them: see there.)
const DATE_UNIT: u64 = 100_000_000;

impl Line {
    // The digits of the dates so far, with those of the date at hand.
    #[tactic(auto, unfolding(crate::specs::Machine::dates_of))]
    pub(crate) fn dates(&self) -> u64
        ensures { result ≡ dates_of self.now.hot }
    {
        self.hot.says % DATE_UNIT * DATE_UNIT + self.hot.field.value
    }

    // What the line says after a date: the dates of its period, if its row has one.
    #[tactic(auto, unfolding(crate::specs::Machine::dated_of), using(crate::proofs::PeriodPlaces::places))]
    pub fn dated(&self) -> u64
        ensures { result ≡ dated_of self.now.hot }
    {
        match period_at(self.hot.row) {
            Some(_) => self.dates(),
            None => self.hot.says,
        }
    }
}
