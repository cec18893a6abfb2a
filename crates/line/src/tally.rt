// What is kept of the lines ended: for each row, each block and each period.
ghost use Rattle.std.specs.Prelude.{◌≡◌, not, ◌+◌, ◌≤◌};
ghost use Rattle.layout.specs.Rows.{row_count};
ghost use Rattle.rules.specs.Bytes.{LF};
ghost use Rattle.rules.specs.Numbers.{broken};
ghost use Rattle.rules.specs.Rules.{byte_limit};
ghost use Rattle.line.specs.Machine.{Below, entry_of, used_of, room_of, occurs_of, holds_of, all_hold_of};
ghost use Rattle.line.specs.Machine.{pair_count, pairs_kept, none_is, repeated_of, crowded_of, pair_rule_of};
ghost use Rattle.line.specs.Tally.{Countable, fresh_tally, counted_tally, raised_tally, paired_tally, stated_tally, tally_with};

use crate::hot::Hot;
use crate::line::Line;
use crate::order::{ROW_9900, ROW_9999};
use crate::periods::{PAIRS, PAIRS_MOST};
use crate::statements::{NUMBER_UNIT, joined};
use layout::blocks::BLOCKS;
use layout::parents::parent_at;
use layout::periods::{later_at, period_at};
use layout::roles::block_at;
use layout::rows::{ENTRIES, ROWS, limit_at};
use rules::Rule;

// For each row: its lines ended, the number of its last line, and how many stood under one parent line then. For each block, in the
// order of blocks: its lines ended. For each row, and for no row: 0, or one more than what 9900 lines state of it. For each row that
// has a period: the pairs of dates of its lines, in their order.
// Arrays side by side, and their bounds in clauses: a caller keeps them, and `check` promises its exact answer (`check_of`) whatever
// stands there.
#[derive(Clone, Copy)]
pub struct Tally {
    pub counts: [u64; ROWS],
    pub stamps: [u64; ROWS],
    pub occurrences: [u64; ROWS],
    pub totals: [u64; BLOCKS],
    pub stated: [u64; ENTRIES],
    pub pairs: [u64; PAIRS],
}

// An array's entry at a row; of no row 0.
#[tactic(auto, unfolding(crate::specs::Machine::entry_of))]
pub fn entry(array: &[u64; ROWS], r: usize) -> u64
    ensures { result ≡ entry_of array.now r }
{
    array.get(r).copied().unwrap_or(0)
}

impl Tally {
    // Before the first line.
    pub fn new() -> Tally
        ensures { result ≡ fresh_tally }
    {
        Tally {
            counts: [0; ROWS],
            stamps: [0; ROWS],
            occurrences: [0; ROWS],
            totals: [0; BLOCKS],
            stated: [0; ENTRIES],
            pairs: [0; PAIRS],
        }
    }

    // How many lines of the row stand under its parent line: none, if a parent line came after the last of them.
    #[tactic(auto, unfolding(crate::specs::Machine::used_of))]
    pub fn used(&self, r: usize) -> u64
        requires { r ≤ row_count }
        ensures { result ≡ used_of self.now.stamps self.now.occurrences r }
    {
        if entry(&self.stamps, parent_at(r)) < entry(&self.stamps, r) {
            return entry(&self.occurrences, r);
        }
        0
    }

    // Whether one more line of the row may stand under its parent line.
    #[tactic(auto, unfolding(crate::specs::Machine::room_of))]
    pub fn has_room(&self, r: usize) -> bool
        requires { r ≤ row_count }
        ensures { result ≡ room_of self.now.stamps self.now.occurrences r }
    {
        match limit_at(r) {
            Some(most) => self.used(r) < most,
            None => true,
        }
    }

    // Whether the pair is among the n that stand from this place on.
    fn is_among(&self, place: usize, n: usize, pair: u64) -> bool
        requires { place + n ≤ pair_count }
        ensures { result ≡ not (none_is self.now.pairs place n pair) }
    {
        self.pairs[place..place + n].contains(&pair)
    }

    // How many pairs of the row are kept: one for each of its lines, while there is room.
    #[tactic(auto, unfolding(crate::specs::Machine::pairs_kept))]
    fn kept(&self, r: usize) -> usize
        ensures { result ≡ pairs_kept self.now.counts r }
    {
        PAIRS_MOST.min(entry(&self.counts, r) as usize)
    }

    // Whether the pair of dates is new to its row, and has room there. It is asked at the bar after the later date.
    #[tactic(auto, unfolding(crate::specs::Machine::pair_rule_of, crate::specs::Machine::repeated_of, crate::specs::Machine::crowded_of, layout::specs::Periods::later_date), using(crate::proofs::PeriodPlaces::places))]
    pub fn pair_fault(&self, line: &Line) -> Result<(), Rule>
        requires { 1 ≤ line.now.hot.bars }
        ensures { broken result
            ≡ pair_rule_of line.now.hot (repeated_of line.now.hot self.now.counts self.now.pairs) (crowded_of line.now.hot self.now.counts) }
    {
        let r = line.hot.row;
        let Some(place) = period_at(r) else {
            return Ok(());
        };
        if line.hot.bars != later_at(place) {
            return Ok(());
        }
        if self.is_among(PAIRS_MOST * place, self.kept(r), line.dates()) {
            return Err(Rule::PairSeen);
        }
        if PAIRS_MOST as u64 <= entry(&self.counts, r) {
            return Err(Rule::PairTooMany);
        }
        Ok(())
    }

    // The lines of a row in the whole file: 9999's own line is still to end. Of no row there are none.
    #[tactic(auto, unfolding(crate::specs::Machine::occurs_of), using(crate::proofs::StatementLaws::entry_most))]
    fn occurs(&self, r: usize) -> u64
        requires { Below (byte_limit + 1) self.now.counts }
        ensures { result ≡ occurs_of self.now.counts r }
    {
        let ended = entry(&self.counts, r);
        if r == ROW_9999 { ended + 1 } else { ended }
    }

    #[tactic(auto, unfolding(crate::specs::Machine::holds_of))]
    fn holds(&self, r: usize) -> bool
        requires below { Below (byte_limit + 1) self.now.counts }
        requires row_or_none { r ≤ row_count }
        ensures { result ≡ holds_of self.now.counts self.now.stated r }
    {
        let n = self.stated[r];
        n == 0 || n == self.occurs(r) + 1
    }

    // Whether all that is stated is true of the whole file.
    pub fn all_hold(&self) -> bool
        requires { Below (byte_limit + 1) self.now.counts }
        ensures { result ≡ all_hold_of self.now.counts self.now.stated }
    {
        (0..ENTRIES).all(|r| self.holds(r))
    }

    // A line of row r has ended, the file's line n. Of no row nothing is counted.
    #[tactic(auto, unfolding(crate::specs::Tally::set_of, crate::specs::Machine::entry_of), using(crate::proofs::TallyRanges::used_le))]
    pub fn count(&mut self, r: usize, n: u64)
        requires row_or_none { r ≤ row_count }
        requires below { Below (byte_limit + 1) self.old.counts × Below (byte_limit + 1) self.old.occurrences }
        ensures { self.new ≡ counted_tally self.old r n }
    {
        if r < ROWS {
            let under = self.used(r);
            self.counts[r] += 1;
            self.stamps[r] = n;
            self.occurrences[r] = under + 1;
        }
    }

    // The total of a block is one more; of no block nothing is.
    #[tactic(auto, unfolding(crate::specs::Tally::raised_of))]
    pub fn raise(&mut self, block: usize)
        requires { Below (byte_limit + 1) self.old.totals }
        ensures { self.new ≡ raised_tally self.old block }
    {
        if block < BLOCKS {
            self.totals[block] += 1;
        }
    }

    // What a line of a row that has a period says is the next pair of its row, if there is room.
    #[tactic(auto, unfolding(crate::specs::Tally::paired_of), using(crate::proofs::PeriodPlaces::places))]
    pub fn pair(&mut self, line: &Line)
        ensures { self.new ≡ paired_tally self.old line.now.hot }
    {
        let Some(place) = period_at(line.hot.row) else {
            return;
        };
        let ended = entry(&self.counts, line.hot.row);
        if ended < PAIRS_MOST as u64 {
            self.pairs[PAIRS_MOST * place + ended as usize] = line.hot.says;
        }
    }

    // What a 9900 line says is stated of a row, or of no row.
    #[tactic(auto, unfolding(crate::specs::Tally::stated_with, crate::specs::Tally::stated_of))]
    pub fn state(&mut self, hot: &Hot)
        ensures { self.new ≡ stated_tally self.old hot.now }
    {
        if hot.row != ROW_9900 {
            return;
        }
        let r = (hot.says % NUMBER_UNIT) as usize;
        if r < ENTRIES {
            self.stated[r] = joined(self.stated[r], hot.says / NUMBER_UNIT);
        }
    }

    // The line at hand ends.
    #[tactic(auto, unfolding(crate::specs::Tally::counts_with, crate::specs::Tally::stamps_with, crate::specs::Tally::occurrences_with, crate::specs::Tally::totals_with, crate::specs::Tally::pairs_with))]
    pub fn note(&mut self, line: &Line)
        requires { Countable self.old }
        ensures { self.new ≡ tally_with line.now.hot (line.now.hot.lines + 1) LF self.old }
    {
        self.pair(line);
        self.state(&line.hot);
        self.raise(block_at(line.hot.row) as usize);
        self.count(line.hot.row, line.hot.lines + 1);
    }
}
