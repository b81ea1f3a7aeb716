// What a basket reads before it writes: its refusals, the old slots and the slots that it takes.

#![tactic(auto)]

pub mod given;
pub mod olds;
pub mod plan;
pub mod sizes;
pub mod slots;
pub mod totals;
