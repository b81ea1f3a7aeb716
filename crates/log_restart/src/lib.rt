#![tactic(auto)]

// The restart rule for the log: kills and power cuts over a cache.
