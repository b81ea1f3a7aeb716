// The steps of the trial session.

#![tactic(auto)]

pub mod lines;
pub mod start;
pub mod step;
