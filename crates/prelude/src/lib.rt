// Lists, choices, ranges and refusals in general: definitions and laws.

#![tactic(auto)]
