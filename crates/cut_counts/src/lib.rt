// Power cuts tried on paper: types, definitions and laws.

#![tactic(auto)]

// The answer: how many of the 81 pairs of counts leave the earlier map and how many the later one, or a refusal.
#[derive(Clone, Copy)]
pub enum CutCounts {
    Counted { earlier: u32, later: u32 },
    Refused(u32),
}

// An image that recovery accepts, with its live count; or recovery's refusal.
#[derive(Clone, Copy)]
pub enum Indexed {
    Map(u32),
    Nothing(u32),
}

// How many pairs so far left the earlier map, and how many the later one.
#[derive(Clone, Copy)]
pub struct Tally {
    pub earlier: u32,
    pub later: u32,
}
