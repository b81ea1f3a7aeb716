// The index: chains of slots in two lent slices of numbers, and a state beside them.

#![tactic(auto)]

// The reuse chain's first and last slot, the live count, the newest slot, one of the highest valid version, and the
// next version. To the calls for any index the newest slot is a hint, by which they find out faster which slots they
// may take; the calls for the owner of an index go by it.
#[derive(Clone, Copy)]
pub struct State {
    pub first: u32,
    pub last: u32,
    pub live: u32,
    pub newest: u32,
    pub version: u64,
}

// What following a key's chain finds: the key's slot, with the slot before it (0 for the head) and the count of slots
// compared; no slot, with the chain's last slot (0 for the head) and the count; or a chain that no set has.
#[derive(Clone, Copy)]
pub enum Found {
    At { slot: u32, prev: u32, compared: u32 },
    Missing { prev: u32, compared: u32 },
    BadChain,
}

// Which keys a write is for: insert for a key that is not held, replace for one that is.
#[derive(Clone, Copy)]
pub enum Mode {
    Insert,
    Replace,
}

// Where a key stands in its chain: its slot, with the slot before it (0 for the head); or nowhere, with the chain's
// last slot (0 for the head).
#[derive(Clone, Copy)]
pub enum Place {
    Held { slot: u32, prev: u32 },
    NotHeld { prev: u32 },
}

// What a call reads before it writes: its refusal, or where the key stands. Each has the count of slots compared, 0 for
// a call refused before or by its chain.
#[derive(Clone, Copy)]
pub enum Lookup {
    Refused { number: u32, compared: u32 },
    Accepted { place: Place, compared: u32 },
}

// What a basket asks for one of its keys.
#[derive(Clone, Copy)]
pub enum Action {
    Write(Mode),
    Remove,
}
