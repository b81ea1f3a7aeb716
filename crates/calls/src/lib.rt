// The types of the public calls; what the calls answer and change is defined in specs.

#![tactic(auto)]

use index::{Action, State};

// The answer of insert, replace and remove: the slot taken and the version, absent, or a refusal.
#[derive(Clone, Copy)]
pub enum Outcome {
    Stored { slot: u32, version: u64 },
    Absent,
    Refused(u32),
}

// What insert, replace and remove give back: the answer, the new state, the count of slots compared and the count of
// words moved. The stores to be played are lent.
#[derive(Clone, Copy)]
pub struct Change {
    pub outcome: Outcome,
    pub state: State,
    pub compared: u32,
    pub moved: usize,
}

// Get's answer: the length of the value, absent, or a refusal.
#[derive(Clone, Copy)]
pub enum Got {
    Length(usize),
    Absent,
    Refused(u32),
}

// What get gives back: the answer, the count of slots compared and the count of words moved.
#[derive(Clone, Copy)]
pub struct GetAnswer {
    pub got: Got,
    pub compared: u32,
    pub moved: usize,
}

// Locate's answer: the slot that holds the key and the version on its line A, absent, or a refusal.
#[derive(Clone, Copy)]
pub enum Located {
    At { slot: u32, version: u64 },
    Absent,
    Refused(u32),
}

// What locate gives back: the answer and the count of slots compared.
#[derive(Clone, Copy)]
pub struct LocateAnswer {
    pub located: Located,
    pub compared: u32,
}

// Format's answer: the number of slots, or a refusal.
#[derive(Clone, Copy)]
pub enum Formatted {
    Slots(u32),
    Refused(u32),
}

// One of a basket's keys: what is asked for it, its low and its high word (not read in layout 1), and the length of its
// value, which does not matter of a remove.
#[derive(Clone, Copy)]
pub struct BasketItem {
    pub action: Action,
    pub low: u64,
    pub high: u64,
    pub length: usize,
}

// A basket's answer: the version, or a refusal.
#[derive(Clone, Copy)]
pub enum BasketOutcome {
    Stored { version: u64 },
    Refused(u32),
}

// What a basket gives back: the answer, the slots taken, key by key and then zeros, and the new state. The stores to be
// played are lent.
#[derive(Clone, Copy)]
pub struct BasketAnswer {
    pub outcome: BasketOutcome,
    pub slots: [u32; 8],
    pub state: State,
}

// The slots of the old records of a basket's keys, 0 for none; or the refusal by their chains.
#[derive(Clone, Copy)]
pub struct Olds {
    pub fault: u32,
    pub slots: [u32; 8],
}

// How many keys a basket inserts and how many it removes.
#[derive(Clone, Copy)]
pub struct Totals {
    pub inserts: u32,
    pub removes: u32,
}

// What a basket reads before it writes: its refusal, 0 for none; else the slots of the old records of its keys, the
// slots that it takes and the slots before them.
#[derive(Clone, Copy)]
pub struct Plan {
    pub fault: u32,
    pub olds: [u32; 8],
    pub slots: [u32; 8],
    pub prevs: [u32; 8],
}

// What a basket gives back, with its stores: the first `stored` numbers of `at` are their word numbers, and those of
// `words` their values.
#[derive(Clone, Copy)]
pub struct BasketMade {
    pub answer: BasketAnswer,
    pub stored: usize,
    pub at: [u32; 128],
    pub words: [u64; 128],
}
