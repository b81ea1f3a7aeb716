// The input of the trial session byte by byte.

#![tactic(auto)]

pub mod stream;
