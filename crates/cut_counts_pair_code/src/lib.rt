// The 81 pairs of counts: each cut is played on a copy, recovered and compared.

#![tactic(auto)]

pub mod pairs;
