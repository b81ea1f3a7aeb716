// Computed histories of the restart machine: programs that leave out a duty break the restart rule.

#![tactic(auto)]
