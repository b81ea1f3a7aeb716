// The calls that take a list of stores, each of which is lent the same list.

#![tactic(auto)]

pub mod lent;
