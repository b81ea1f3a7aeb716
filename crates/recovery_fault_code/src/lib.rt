// The refusals of recovery, by what it found.

#![tactic(auto)]

pub mod fault;
