// Lines of input read byte by byte, and lines of output.

#![tactic(auto)]

pub mod input;
pub mod output;
