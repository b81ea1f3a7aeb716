// The head of a key, the search of its chain, and what is refused by what was found.

#![tactic(auto)]

pub mod fault;
pub mod head;
pub mod search;
