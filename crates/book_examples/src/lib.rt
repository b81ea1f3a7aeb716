// A computed history of the order book: specs/Book.antt has its steps, what they answer and its totals,
// proofs/Book.antt the check.

#![tactic(auto)]
