// The calls of layout 2 for a program in C, C++ or Rust: as those of orderset_c, with a key of two words. Format, play
// and the questions about a line are there.

#![tactic(auto)]

pub mod count;
pub mod get;
pub mod locate;
pub mod recover;
