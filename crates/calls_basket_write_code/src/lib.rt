// What a basket writes: its stores and the index.

#![tactic(auto)]

pub mod links;
pub mod records;
