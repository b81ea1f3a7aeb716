// The public calls that write for the owner of an index.

#![tactic(auto)]

pub mod own;
