// Which slots a call may take, and its refusal by them.

#![tactic(auto)]

pub mod choose;
mod look;
mod slot;
pub mod take;
