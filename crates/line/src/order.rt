// Where a line can stand, told from the row of the last line ended.
ghost use Rattle.std.specs.Prelude.{◌≡◌, ◌≤◌, ◌<◌};
ghost use Rattle.layout.specs.Rows.{row_count, level};
ghost use Rattle.rules.specs.Order.{is_data};
ghost use Rattle.layout.specs.Climb.{climb};
ghost use Rattle.line.specs.Machine.{starts_of, ends_of, hangs_of, stands_of, misplaced_of};

use layout::parents::parent_at;
use layout::roles::{block_at, is_closing, is_opening};
use layout::rows::{ROWS, level_at};

const ROW_0000: usize = 0;

pub const ROW_9900: usize = ROWS - 3;

const ROW_9990: usize = ROWS - 2;

pub const ROW_9999: usize = ROWS - 1;

// The lowest level of a data line.
const DATA_LEVEL: u64 = 2;

// What an opening says: data to come, or none. (Numbers, as `Hot` keeps them: see there.)
pub const WITH_DATA: u64 = 1;

pub const WITHOUT_DATA: u64 = 2;

// The first of a row and its ancestors whose level is n or below.
fn climb_to(n: u64, from: usize) -> usize
    requires { (1 ≤ n) × (from ≤ row_count) }
    ensures { result ≡ climb n from }
{
    let mut x = from;
    while n < level_at(x) {
        x = parent_at(x);
    }
    x
}

#[tactic(auto, unfolding(crate::specs::Machine::starts_of))]
fn starts_block(last: usize, r: usize) -> bool
    requires { (last ≤ row_count) × (r ≤ row_count) }
    ensures { result ≡ starts_of last r }
{
    let block = block_at(r);
    if block == 0 {
        return last == ROW_0000;
    }
    is_closing(last) && block_at(last) < block
}

#[tactic(auto, unfolding(crate::specs::Machine::ends_of))]
fn ends_block(last: usize, r: usize) -> bool
    requires { (last ≤ row_count) × (r ≤ row_count) }
    ensures { result ≡ ends_of last r }
{
    block_at(last) == block_at(r) && !is_closing(last) && 0 < level_at(last)
}

#[tactic(auto, unfolding(crate::specs::Machine::hangs_of))]
pub fn hangs(last: usize, r: usize) -> bool
    requires { (last ≤ row_count) × (r < row_count) × (2 ≤ level r) }
    ensures { result ≡ hangs_of last r }
{
    let parent = parent_at(r);
    climb_to(level_at(parent), last) == parent
}

#[tactic(auto, unfolding(crate::specs::Machine::stands_of))]
pub fn stands(last: usize, r: usize) -> bool
    requires { (last ≤ row_count) × (r < row_count) }
    ensures { result ≡ stands_of last r }
{
    if r == ROW_0000 {
        return last == ROWS;
    }
    if is_opening(r) {
        return starts_block(last, r);
    }
    if is_closing(r) {
        return ends_block(last, r);
    }
    if r == ROW_9999 {
        return last == ROW_9990;
    }
    hangs(last, r)
}

#[tactic(auto, unfolding(rules::specs::Order::is_data))]
fn is_data(r: usize) -> bool
    requires { r ≤ row_count }
    ensures { result ≡ is_data r }
{
    DATA_LEVEL <= level_at(r)
}

// A data line after an opening that says there are none, or a closing right after one that says there are.
#[tactic(auto, unfolding(crate::specs::Machine::misplaced_of))]
pub fn misplaced(says: u64, r: usize) -> bool
    requires { r ≤ row_count }
    ensures { result ≡ misplaced_of says r }
{
    match says {
        WITH_DATA => is_closing(r),
        WITHOUT_DATA => is_data(r),
        _ => false,
    }
}
