// Laws that documents name and that no function's proof needs. There is no code.

#![tactic(auto)]
