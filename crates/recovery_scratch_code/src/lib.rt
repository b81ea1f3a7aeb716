// Recovery with scratch lists of a size.

#![tactic(auto)]

mod fronts;
pub mod scratch;
