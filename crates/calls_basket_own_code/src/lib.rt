// The public call that changes up to eight keys, for the owner of an index.

#![tactic(auto)]

pub mod basket;
