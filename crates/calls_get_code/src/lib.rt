// The public call that reads a value: get.

#![tactic(auto)]

pub mod get;
