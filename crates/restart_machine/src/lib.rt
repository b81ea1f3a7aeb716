// The machine of kills and power cuts over a cache, and the restart rule for every library that has the laws.

#![tactic(auto)]
