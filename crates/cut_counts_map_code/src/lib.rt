// Whether two images have one map: the index of each, its slots and their values.

#![tactic(auto)]

pub mod maps;
pub mod slots;
pub mod values;
