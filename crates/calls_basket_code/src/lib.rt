// The public call that changes up to eight keys, for any index.

#![tactic(auto)]

pub mod basket;
