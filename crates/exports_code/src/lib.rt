// The state, refusals, plays and formats by lent numbers, for both layouts.

#![tactic(auto)]

pub mod format;
pub mod play;
pub mod refusal;
pub mod state;
