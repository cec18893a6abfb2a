// One line as it streams through: where it can stand, its fields, its end, byte by byte; and what is kept of the lines ended.
#![tactic(auto)]

pub mod hot;
pub mod line;
pub mod order;
pub mod periods;
pub mod statements;
pub mod step;
pub mod tally;
