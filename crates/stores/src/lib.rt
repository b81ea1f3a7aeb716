// Stores and what stands of them after a cut: types, definitions and laws.

#![tactic(auto)]

// A store: it sets the word with this number, counted from the start of an image or of an area, to the value.
#[derive(Clone, Copy)]
pub struct Store {
    pub word: u32,
    pub value: u64,
}

// Sixteen stores: store i sets word at[i] of the image to value[i].
#[derive(Clone, Copy)]
pub struct Stores {
    pub at: [u32; 16],
    pub value: [u64; 16],
}
