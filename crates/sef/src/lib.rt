// The checker: a file in pieces, judged byte by byte. The public calls are in `calls`, and on a state that is kept in place in
// `in_place`; what they take and give back is `State` and `answers`.
#![tactic(auto)]

pub mod calls;
pub mod in_place;

pub use state::{State, Tally, answers};
