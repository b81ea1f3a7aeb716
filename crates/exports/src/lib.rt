// What the functions for C return and leave in lent numbers: definitions and laws.

#![tactic(auto)]
