// The public call that makes an empty set: format.

#![tactic(auto)]

pub mod format;
