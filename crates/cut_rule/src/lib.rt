// The cut rule: one theorem over the interface of the set and the order book.

#![tactic(auto)]
