// The steps of the order book, with all that they take and answer in lent numbers, in either layout, for any index and
// for the owner of an index.

#![tactic(auto)]

pub mod steps;
