// Lines and slots.

#![tactic(auto)]

pub mod line;
pub mod slot;
