// The refusals of the lines of the trial session.

#![tactic(auto)]

pub mod refusal;
