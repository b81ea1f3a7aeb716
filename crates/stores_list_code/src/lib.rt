// A lent list of stores: it is filled from two lists of numbers, and played.

#![tactic(auto)]

pub mod list;
pub mod play;
