// Counting the slots of an image: types, definitions and laws.

#![tactic(auto)]

// How many slots of an accepted image are of each class, in the order of document 02.
#[derive(Clone, Copy)]
pub struct SlotCounts {
    pub live: u32,
    pub hidden: u32,
    pub removes: u32,
    pub void: u32,
    pub broken: u32,
    pub empty: u32,
}

// The answer: the six counts, or recovery's refusal with the slot that it names, 0 for none.
#[derive(Clone, Copy)]
pub enum CountAnswer {
    Counted(SlotCounts),
    Refused { number: u32, slot: u32 },
}
