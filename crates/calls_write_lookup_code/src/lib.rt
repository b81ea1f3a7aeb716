// What insert, replace and remove read before they write: a refusal, or the place of the key.

#![tactic(auto)]

pub mod remove;
pub mod store;
pub mod write;
