// What calls of one key, counts and recovery answer by lent numbers, for both layouts.

#![tactic(auto)]

pub mod answer;
pub mod count;
pub mod recover;
