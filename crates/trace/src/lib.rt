// The release trace, and what it prints: for each call that stores the counts of its cuts. Definitions and laws.

#![tactic(auto)]
