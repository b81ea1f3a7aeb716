// The table of an image: one content for each slot, and what stores make of it, all of them or what a cut leaves.
// Definitions and laws.

#![tactic(auto)]
