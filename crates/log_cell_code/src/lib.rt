// The cells of the log: the flexible validity bit of a payload line, which numbers are complete, and which of them are
// shown.
#![tactic(auto)]

pub mod bit;
pub mod cells;
