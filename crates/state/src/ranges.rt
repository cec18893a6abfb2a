// Every stored number within its range (docs/STATE.md): what refusal 19 asks.
ghost use Rattle.std.specs.Prelude.{leb, ◌≡◌, ◌<◌, eqb, length};
ghost use Rattle.std.specs.List.{list_all};
ghost use Rattle.layout.specs.Rows.{row_count, blocks};
ghost use Rattle.rules.specs.Numbers.{is_rule};
ghost use Rattle.rules.specs.Totals.{sum, block_count};
ghost use Rattle.state.specs.Ranges.{totals_to, line_ranged, hot_ranged, position_ranged};

use crate::State;
use field::bytes::CAP;
use layout::blocks::{BLOCKS, start_at};
use layout::kinds::KIND_MOST;
use layout::rows::{FIELDS_MOST, ROWS};
use line::hot::Hot;
use line::statements::{NUMBER_UNIT, UNTRUE};
use rules::{BYTE_LIMIT, Rule};

// The byte that breaks rule 16 is judged too.
const BYTES_MOST: u64 = BYTE_LIMIT + 1;

// A line has a bar before each field, and the last one.
const BARS_MOST: u64 = FIELDS_MOST + 1;

// A 9900 line says most. (A number, as `Hot` keeps it.)
const SAYS_MOST: u64 = NUMBER_UNIT * (UNTRUE + 1) - 1;

// Every entry is at most so much.
fn within(array: &[u64], most: u64) -> bool
    ensures { result ≡ list_all (λ n. leb n most) array.now }
{
    array.iter().all(|&n| n <= most)
}

// Whether the numbers add up to the total. Each is taken from it, so that no sum can get too large.
#[tactic(auto, using(crate::proofs::SumLaws::sum_drop), unfolding(rules::specs::Totals::sum))]
fn adds_up(numbers: &[u64], total: u64) -> bool
    ensures { result ≡ eqb (sum numbers.now) total }
{
    let mut left = total;
    for &n in numbers {
        if left < n {
            return false;
        }
        left -= n;
    }
    left == 0
}

// The counts of the rows of block x, which stand together.
#[tactic(auto, using(crate::proofs::PartLaws::part_rises, crate::proofs::PartLaws::part_ends, crate::proofs::PartLaws::part_sum))]
fn counts_of_block(counts: &[u64], x: usize) -> &[u64]
    requires each_row { length counts.now ≡ row_count }
    requires of_a_block { x < blocks }
    ensures { sum result.now ≡ block_count x counts.now }
{
    &counts[start_at(x)..start_at(x + 1)]
}

// Each total is the sum of its block's counts.
#[tactic(auto, using(crate::proofs::PartLaws::totals_hold, crate::proofs::PartLaws::totals_fail))]
fn totals_ranged(counts: &[u64], totals: &[u64; BLOCKS]) -> bool
    requires { length counts.now ≡ row_count }
    ensures { result ≡ totals_to counts.now totals.now blocks }
{
    for (x, &total) in totals.iter().enumerate() {
        if !adds_up(counts_of_block(counts, x), total) {
            return false;
        }
    }
    true
}

// The line at hand. (Tests are joined by `&`: none need be spared, once in a piece, and so there is no branch.)
#[tactic(auto, unfolding(crate::specs::Ranges::line_ranged))]
fn line_ranged(hot: &Hot) -> bool
    ensures { result ≡ line_ranged hot.now }
{
    (hot.bars <= BARS_MOST)
        & (hot.row <= ROWS)
        & ((hot.bars <= 1) | (hot.row < ROWS))
        & (1 <= hot.fields)
        & (hot.fields <= FIELDS_MOST)
        & (hot.kind <= KIND_MOST)
        & (hot.field.length <= hot.bytes)
        & (hot.field.wrong <= hot.field.length)
        & (hot.field.value <= CAP)
}

#[tactic(auto, unfolding(crate::specs::Ranges::hot_ranged))]
fn hot_ranged(hot: &Hot) -> bool
    ensures { result ≡ hot_ranged hot.now }
{
    (hot.bytes <= BYTES_MOST)
        & (hot.lines <= hot.bytes)
        & (hot.last <= ROWS)
        & (hot.since <= hot.bytes)
        & (hot.says <= SAYS_MOST)
        & line_ranged(hot)
}

// The numbers of the rules that the bytes or their end can break. (What is stored is a number, which may be no rule's.)
fn is_rule(n: u64) -> bool
    ensures { result ≡ is_rule n }
{
    (1 <= n) & (n <= Rule::TooLong.number())
        | (n == Rule::PairSeen.number())
        | (n == Rule::PairTooMany.number())
        | (n == Rule::UntrueStatement.number())
        | (n == Rule::WrongCheckDigit.number())
}

// Only 2 and 10 give a position, and it is that of a byte that has been judged.
#[tactic(auto, unfolding(crate::specs::Ranges::position_ranged))]
fn position_ranged(rule: u64, position: u64, bytes: u64) -> bool
    ensures { result ≡ position_ranged rule position bytes }
{
    if (rule == Rule::ControlByte.number()) | (rule == Rule::WrongCharacters.number()) {
        return (1 <= position) & (position <= bytes);
    }
    position == 0
}

impl State {
    ghost use Rattle.state.specs.Ranges.{refusal_ranged, tally_ranged, ranged_of};

    // The refusal that is kept: while no rule is broken no field is named and no position given, and the bytes are within the limit.
    #[tactic(auto, unfolding(crate::specs::Ranges::refusal_ranged))]
    fn refusal_ranged(&self) -> bool
        ensures { result ≡ refusal_ranged self.now.rule self.now.field self.now.position self.now.hot.bytes }
    {
        let bytes = self.hot.bytes;
        if self.rule == 0 {
            return (self.field == 0) & (self.position == 0) & (bytes <= BYTE_LIMIT);
        }
        is_rule(self.rule)
            & (self.field <= BARS_MOST)
            & position_ranged(self.rule, self.position, bytes)
    }

    // What is kept for each row and each block. Of a pair of dates any number is in range: it is only compared.
    #[tactic(auto, using(crate::proofs::ListLaws::list_tests), unfolding(crate::specs::Ranges::tally_ranged))]
    fn tally_ranged(&self) -> bool
        ensures { result ≡ tally_ranged self.now.tally self.now.hot.lines self.now.hot.bytes }
    {
        let tally = &self.tally;
        within(&tally.stamps, self.hot.bytes)
            & within(&tally.occurrences, self.hot.bytes)
            & within(&tally.stated, UNTRUE)
            & totals_ranged(&tally.counts, &tally.totals)
            & adds_up(&tally.totals, self.hot.lines)
    }

    // Whether every stored number is in its range.
    #[tactic(auto, unfolding(crate::specs::Ranges::ranged_of))]
    pub fn is_ranged(&self) -> bool
        ensures { result ≡ ranged_of self.now }
    {
        hot_ranged(&self.hot) & self.refusal_ranged() & self.tally_ranged()
    }
}
