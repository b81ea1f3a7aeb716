// The input of a report: the size of its images, and what is left of a block.

#![tactic(auto)]

pub mod carry;
pub mod size;
