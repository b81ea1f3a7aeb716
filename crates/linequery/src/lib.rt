// What is asked of a single line: definitions and laws.

#![tactic(auto)]
