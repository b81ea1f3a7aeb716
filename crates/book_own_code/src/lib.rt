// The steps of the order book for the owner of an index. None has a `requires`; each contract is one equation. A step
// whose name ends in 2 is layout 2's.

#![tactic(auto)]

mod own;

pub use own::{
    own_acknowledge, own_acknowledge2, own_fill, own_fill2, own_new, own_new2, own_withdraw,
    own_withdraw2,
};
