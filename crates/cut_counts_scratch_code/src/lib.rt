// The cuts counted with the lists that three indexes take.

#![tactic(auto)]

mod indexes;
pub mod scratch;
