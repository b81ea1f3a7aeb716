// Insert, replace and remove, with the layout as a parameter, for any index and for the owner of one.

#![tactic(auto)]

pub mod remove;
pub mod write;
