// Steps of proofs that walk the MIR of a function by hand: no type, no definition and no function.

#![tactic(auto)]
