// The raw message log: types, definitions and laws. Document 02, A.10.
#![tactic(auto)]

use refusals::Refusal;

// What append and recovery answer: a number and the count of the stores.
#[derive(Clone, Copy)]
pub struct LogStored {
    pub number: u64,
    pub count: usize,
}

// Where a message stands in the area: at which byte it starts and how many bytes it has.
#[derive(Clone, Copy)]
pub struct Part {
    pub start: usize,
    pub size: usize,
}

// Word 2 of the marked line of a message, and how many stores its payload lines have.
#[derive(Clone, Copy)]
pub struct Payload {
    pub pairs: u64,
    pub count: usize,
}

// What an append reads before it writes: its number, its cell, word 2 of its marked line, and the count of its stores.
#[derive(Clone, Copy)]
pub struct AppendPlan {
    pub number: u64,
    pub cell: usize,
    pub pairs: u64,
    pub count: usize,
}

// What an append or a recovery gives back, with its stores: the first `stored` numbers of `at` are their word numbers,
// and those of `value` their values.
#[derive(Clone, Copy)]
pub struct LogMade<const N: usize> {
    pub answer: Result<LogStored, Refusal>,
    pub stored: usize,
    pub at: [u32; N],
    pub value: [u64; N],
}
