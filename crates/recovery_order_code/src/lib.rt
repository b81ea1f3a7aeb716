// The slots of a scan in order, by rank and by key, and the chain of each.

#![tactic(auto)]

pub mod ordering;
