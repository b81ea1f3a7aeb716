// The interface of the set: what a layer above may know of it. Its types, handed on; in specs the definitions, the
// events and the laws.

#![tactic(auto)]

pub use calls::{Change, Formatted, GetAnswer, Got, LocateAnswer, Located, Outcome};
pub use index::{Mode, State};
pub use recovery::Recovered;
