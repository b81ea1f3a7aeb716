// The set as a plain map: definitions and laws over the public calls.

#![tactic(auto)]
