// The slots that a call takes from the reuse chain: types, definitions and laws, no function.

#![tactic(auto)]

// A version that is not above the highest valid one; where exact, it is the highest.
#[derive(Clone, Copy)]
pub struct Known {
    pub top: u64,
    pub exact: bool,
}

// How far the choice of slots got along the reuse chain: the link it is at, the slot before it that stays, how many
// slots may still be met, how many are chosen, what is known of the highest valid version, and the slots chosen with
// the slots before them.
#[derive(Clone, Copy)]
pub struct Progress {
    pub at: u32,
    pub prev: u32,
    pub left: usize,
    pub got: usize,
    pub top: u64,
    pub exact: bool,
    pub slots: [u32; 8],
    pub prevs: [u32; 8],
}

// The slots that a call takes, in order, and the slots before them that stay; or its refusal by them.
#[derive(Clone, Copy)]
pub struct Choice {
    pub fault: u32,
    pub slots: [u32; 8],
    pub prevs: [u32; 8],
}

// The refusal of a call by the slots that it takes, 0 for none, and a version that is not above the highest valid one;
// where exact, it is the highest.
#[derive(Clone, Copy)]
pub struct Told {
    pub fault: u32,
    pub top: u64,
    pub exact: bool,
}
