// What the log's functions for C return and leave in lent numbers: definitions.

#![tactic(auto)]
