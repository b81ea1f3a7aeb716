// Recovery: types, definitions and laws.

#![tactic(auto)]

use index::State;

// Recovery's answer: the state beside the rebuilt index, or a refusal with the slot that it names, 0 for none.
#[derive(Clone, Copy)]
pub enum Recovered {
    Rebuilt(State),
    Refused { number: u32, slot: u32 },
}

// The invalidating stores: `count` of them, store i sets word at[i] of the image to value[i]. Entries from `count` on
// are zero.
#[derive(Clone, Copy)]
pub struct Invalidations {
    pub count: u32,
    pub at: [u32; 8],
    pub value: [u64; 8],
}

// What recover gives back: the answer and the invalidating stores, none with a refusal.
#[derive(Clone, Copy)]
pub struct RecoverAnswer {
    pub recovered: Recovered,
    pub invalidations: Invalidations,
}

// What is kept of one slot: its rank in recovery's order, the low and the high word of its key, its chain as a number
// (0 is the reuse chain), the highest version on a whole line, whether it has a bad mark (5), and the fault of its
// record (6, 22, 23 or 24, else 0).
#[derive(Clone, Copy)]
pub struct Summary {
    pub rank: u64,
    pub low: u64,
    pub high: u64,
    pub place: u32,
    pub top: u64,
    pub mark: bool,
    pub fault: u32,
}

// How many slots are of each class: broken, empty, and of the valid ones puts and removes.
#[derive(Clone, Copy)]
pub struct Classes {
    pub broken: u32,
    pub empty: u32,
    pub puts: u32,
    pub removes: u32,
}

// What all slots together say: a bad mark, the fault of the lowest slot at fault and that slot (0 and 0 for none), how
// many are of each class, and the highest version on a whole line.
#[derive(Clone, Copy)]
pub struct Scan {
    pub mark: bool,
    pub fault: u32,
    pub slot: u32,
    pub classes: Classes,
    pub top: u64,
}

// What recovery finds before it writes anything: the refusal of the slots or 0, the slot that it names, the live count,
// the highest version on a whole line, how many slots are of each class, void records as the others, and the
// invalidating stores.
#[derive(Clone, Copy)]
pub struct Judged {
    pub fault: u32,
    pub slot: u32,
    pub live: u32,
    pub top: u64,
    pub classes: Classes,
    pub invalidations: Invalidations,
}

// Recovery's answer, and how many slots of an accepted image are of each class, void records as the others.
#[derive(Clone, Copy)]
pub struct RecoveryReport {
    pub answer: RecoverAnswer,
    pub classes: Classes,
}
