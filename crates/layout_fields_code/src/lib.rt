// The fields of a record, read from the words of an image.

#![tactic(auto)]

pub mod fields;
