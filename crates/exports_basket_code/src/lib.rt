// What a basket asks and answers by lent numbers, for both layouts.

#![tactic(auto)]

pub mod basket;
