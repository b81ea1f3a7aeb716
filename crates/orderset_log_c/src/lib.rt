// The log's calls for a program in C, C++ or Rust. Each returns 0 or the number of its refusal; what it answers goes
// into lent numbers.
#![tactic(auto)]

pub mod calls;
