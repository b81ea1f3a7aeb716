// Recovery's scan of the slots.

#![tactic(auto)]

pub mod scanning;
