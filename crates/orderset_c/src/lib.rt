// The calls for a program in C, C++ or Rust. Each returns 0 or the number of its refusal; recover and the calls of the
// set that walk a chain return a second number above it. What a call answers goes into lent numbers.

#![tactic(auto)]

pub mod count;
pub mod format;
pub mod get;
pub mod line;
pub mod locate;
pub mod play;
pub mod recover;
