// The writes of the index.

#![tactic(auto)]

pub mod basket;
pub mod build;
pub mod change;
