// The steps of the order book, by the calls of the set that take the layout as a parameter. None has a `requires`; each
// contract is one equation. A step whose name ends in 2 is layout 2's.

#![tactic(auto)]

mod steps;

pub use book::{BookChange, BookOutcome};
pub use orderset::State;
pub use steps::{acknowledge, acknowledge2, fill, fill2, new, new2, withdraw, withdraw2};
