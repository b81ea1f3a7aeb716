// The public calls of the log: append, append_after, recovery and read. None has a `requires`; each contract is one equation.
#![tactic(auto)]

mod after;
mod appending;
mod reading;
mod recovering;

pub use after::append_after;
pub use appending::append;
pub use message_log::{LogStored, Part};
pub use reading::{find, read};
pub use recovering::recover_log;
pub use refusals::Refusal;
