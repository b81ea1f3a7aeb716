// The lines of the trial session, read and printed: types, definitions and laws.

#![tactic(auto)]

// What a line of input asks; Bad is a line of none of the forms.
#[derive(Clone, Copy)]
pub enum Line {
    New(u64),
    Write { key: u64, word: u64 },
    Remove(u64),
    Get(u64),
    Cut { a: u64, b: u64 },
    Bad,
}

// The part of a number that was read: no digit yet, the value of its digits, or no number below 2^64.
#[derive(Clone, Copy)]
pub enum Digits {
    NoDigit,
    Value(u64),
    NotNumber,
}

// The part of a line that was read: nothing, its letter, up to its first number, up to its second number, or what no
// line starts with.
#[derive(Clone, Copy)]
pub enum Parse {
    Start,
    Letter(u8),
    First {
        letter: u8,
        digits: Digits,
    },
    Second {
        letter: u8,
        first: u64,
        digits: Digits,
    },
    NotLine,
}

// A step's answer: an accepted n, the slot taken and the version, the word found, absent, the cut that now waits, or a
// refusal; in a trace the counts of a call's cuts, or nothing.
#[derive(Clone, Copy)]
pub enum Reply {
    Made(u64),
    Stored { slot: u32, version: u64 },
    Found(u64),
    Absent,
    Cut { a: u64, b: u64 },
    Refused(u32),
    Counted { earlier: u32, later: u32 },
    Nothing,
}
