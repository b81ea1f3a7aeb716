// Words of 8 bytes in a list of bytes: definitions and laws.

#![tactic(auto)]
