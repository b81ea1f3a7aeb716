// The lines of a release trace, on any image and index.

#![tactic(auto)]

pub mod step;
