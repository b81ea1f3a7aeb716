// The stores of a record.

#![tactic(auto)]

pub mod record;
pub mod value;
