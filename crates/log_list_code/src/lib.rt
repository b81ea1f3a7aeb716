// The calls of the log that put their stores into a lent list of records: append and recovery.

#![tactic(auto)]

mod list;
mod made;

pub use list::{append_list, recover_list};
