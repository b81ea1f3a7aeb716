// The calls that write a key, with all that they take and answer in lent numbers, in either layout, for any index and
// for the owner of an index.

#![tactic(auto)]

pub mod write;
