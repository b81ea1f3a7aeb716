// Orders as bytes, and what each step of the order book is to do.

#![tactic(auto)]

pub mod orders;
pub mod plans;
