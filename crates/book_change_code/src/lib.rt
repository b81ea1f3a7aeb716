// What a step of the order book writes, and the steps in either layout.

#![tactic(auto)]

pub mod change;
pub mod layouts;
