// The public call that says where a key is: locate.

#![tactic(auto)]

pub mod locate;
