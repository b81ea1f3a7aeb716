// The input of a release trace byte by byte.

#![tactic(auto)]

pub mod stream;
