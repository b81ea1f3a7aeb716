// The stores of an append and of a recovery of the log, at the front of the lent lists.
#![tactic(auto)]

pub mod filling;
pub mod invalidation;
pub mod planning;
