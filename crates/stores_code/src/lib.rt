// Stores made on lent bytes: what play refuses, the making of stores, and the public calls play and play_list.

#![tactic(auto)]

pub mod fault;
pub mod make;
pub mod play;
