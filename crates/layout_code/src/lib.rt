// The header of an image, and the words of a value.

#![tactic(auto)]

pub mod header;
pub mod value;
