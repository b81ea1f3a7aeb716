// The report on images that come one after another: types, definitions and laws.

#![tactic(auto)]

// The totals of the accepted images.
#[derive(Clone, Copy)]
pub struct SlotTotals {
    pub live: u64,
    pub hidden: u64,
    pub removes: u64,
    pub void: u64,
    pub broken: u64,
    pub empty: u64,
}

// How many images may still be read, and the totals so far.
#[derive(Clone, Copy)]
pub struct ReportProgress {
    pub left: u32,
    pub totals: SlotTotals,
}

// After an image: the progress, and the position after its line in the output.
#[derive(Clone, Copy)]
pub struct ImageReport {
    pub progress: ReportProgress,
    pub end: usize,
}

// After a block of input: the progress, how many of its bytes were read, and how many bytes of output there are.
#[derive(Clone, Copy)]
pub struct Block {
    pub progress: ReportProgress,
    pub used: usize,
    pub end: usize,
}

// After the first bytes of a buffer: their block, how many of them are carried over to its front, and whether the
// reading ends there.
#[derive(Clone, Copy)]
pub struct FrontReport {
    pub block: Block,
    pub carried: usize,
    pub ended: bool,
}
