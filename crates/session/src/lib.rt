// The trial session, and that it answers as the plain map does: types, definitions and laws.

#![tactic(auto)]

use interface::State;
use text::{Parse, Reply};

// The cut that waits for the next accepted p, or r that stores: how many stores of each line it leaves.
#[derive(Clone, Copy)]
pub struct WaitingCut {
    pub a: usize,
    pub b: usize,
}

// What a session keeps beside the image and the index: the number of slots, 0 before an accepted n, the state and the
// waiting cut, if there is one.
#[derive(Clone, Copy)]
pub struct Session {
    pub n: u64,
    pub state: State,
    pub waiting: Option<WaitingCut>,
}

// A step's answer and the session after it.
#[derive(Clone, Copy)]
pub struct Stepped {
    pub reply: Reply,
    pub session: Session,
}

// Where the input stands: the part of a line that was read and whether there is one, the session, and the end of the
// output that is stored.
#[derive(Clone, Copy)]
pub struct Progress {
    pub parse: Parse,
    pub begun: bool,
    pub session: Session,
    pub at: usize,
}
