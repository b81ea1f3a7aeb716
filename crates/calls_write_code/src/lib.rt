// The public calls that write: insert, replace and remove, for any index.

#![tactic(auto)]

pub mod remove;
pub mod write;
