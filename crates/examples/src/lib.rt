// The examples E1 to E12 of document 01, shown of the definitions: specs/Examples.antt has the table, proofs/Hold.antt
// the check.

#![tactic(auto)]
