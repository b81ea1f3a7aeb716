// Lines, slots, the header and the fields of a record: types, definitions and laws.

#![tactic(auto)]

// What a slot's marks and stamps say of it: valid with its version, empty, or broken with the highest version on a
// whole line.
#[derive(Clone, Copy)]
pub enum Verdict {
    Valid(u64),
    Empty,
    Broken(u64),
}
