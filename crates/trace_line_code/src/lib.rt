// The lines of a release trace, on an image and an index of the set's size.

#![tactic(auto)]

pub mod line;
