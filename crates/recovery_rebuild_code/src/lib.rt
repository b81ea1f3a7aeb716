// The last step of recovery: rebuilding.

#![tactic(auto)]

pub mod rebuilding;
