// The order book: a layer above the set, which it knows by its interface. Types, definitions and laws.

#![tactic(auto)]

use interface::{Mode, State};

// An order: its state (1 sent, 2 acknowledged), the quantity ordered and the quantity filled.
#[derive(Clone, Copy)]
pub struct Order {
    pub state: u64,
    pub ordered: u64,
    pub filled: u64,
}

// The answer of a book step: the slot taken and the version; an order that was acknowledged before, with its slot and
// version; or a refusal.
#[derive(Clone, Copy)]
pub enum BookOutcome {
    Stored { slot: u32, version: u64 },
    Already { slot: u32, version: u64 },
    Refused(u32),
}

// What a book step gives back: the answer and the new state. The stores to be played are lent.
#[derive(Clone, Copy)]
pub struct BookChange {
    pub outcome: BookOutcome,
    pub state: State,
}

// What the get of a step finds: the order of the key, or a refusal.
#[derive(Clone, Copy)]
pub enum Seek {
    Found(Order),
    Missing(u32),
}

// What a step is to do: an insert of this order or a replace by it, a remove, or an answer that changes nothing.
#[derive(Clone, Copy)]
pub enum Plan {
    Write { mode: Mode, order: Order },
    Remove,
    Already { slot: u32, version: u64 },
    Refused(u32),
}
