// One field as it streams through, byte by byte, in constant space.
#![tactic(auto)]

pub mod bytes;
pub mod check_digits;
pub mod date;
pub mod fault;
