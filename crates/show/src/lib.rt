// For the programs: printing to standard output, of labels, numbers and lists of them and of the answers of the calls;
// lines of input; and lines of progress.
#![tactic(auto)]

pub mod fronts;
pub mod input;
pub mod lines;
pub mod progress;

pub use crate::numbers as values;
use orderset::{Formatted, Got, Invalidations, Outcome, Recovered, State};
use std::fmt::Display;
use std::io::Stdout;

// Writes all of these bytes, or as many as can be: false where not all could.
pub fn written(stdout: Stdout, bytes: &[u8]) -> bool {
    stdout.write_all(bytes).is_ok()
}

// Bytes that need not be text.
pub fn text(stdout: Stdout, label: &[u8]) {
    let _ = stdout.write_all(label);
}

pub fn number(stdout: Stdout, n: u64) {
    let _ = print!(stdout; " {n}");
}

pub fn numbers<T: Display>(stdout: Stdout, list: &[T]) {
    for n in list {
        let _ = print!(stdout; " {n}");
    }
}

pub fn refused(stdout: Stdout, number: u32) {
    let _ = print!(stdout; " no {number}");
}

// Format's answer.
pub fn formatted(stdout: Stdout, answer: Formatted) {
    match answer {
        Formatted::Slots(slots) => {
            let _ = print!(stdout; " ok {slots}");
        }
        Formatted::Refused(number) => refused(stdout, number),
    }
}

pub fn state(stdout: Stdout, s: State) {
    let State {
        first,
        last,
        live,
        version,
        ..
    } = s;
    let _ = print!(stdout; " state {first} {last} {live} {version}");
}

// Recovery's answer.
pub fn recovered(stdout: Stdout, answer: Recovered) {
    match answer {
        Recovered::Rebuilt(rebuilt) => state(stdout, rebuilt),
        Recovered::Refused { number, .. } => refused(stdout, number),
    }
}

// The state that recovery leaves, or the one given.
pub fn state_after(answer: Recovered, given: State) -> State {
    match answer {
        Recovered::Rebuilt(rebuilt) => rebuilt,
        Recovered::Refused { .. } => given,
    }
}

// Recovery's invalidating stores, each a word number and a value; nothing where there are none.
pub fn invalidations(stdout: Stdout, stores: Invalidations) {
    let Invalidations { count, at, value } = stores;
    if count == 0 {
        return;
    }
    text(stdout, b" opens");
    for (word, value) in at.iter().zip(&value).take(count as usize) {
        let _ = print!(stdout; " {word} {value}");
    }
}

// The answer of an insert, a replace or a remove.
pub fn outcome(stdout: Stdout, answer: Outcome) {
    match answer {
        Outcome::Stored { slot, version } => {
            let _ = print!(stdout; " ok {slot} {version}");
        }
        Outcome::Absent => text(stdout, b" absent"),
        Outcome::Refused(number) => refused(stdout, number),
    }
}

// The index.
pub fn index(stdout: Stdout, heads: &[u32], next: &[u32]) {
    text(stdout, b" heads");
    numbers(stdout, heads);
    text(stdout, b" next");
    numbers(stdout, next);
    text(stdout, b"\n");
}

// The answer of a get.
pub fn got(stdout: Stdout, answer: Got) {
    match answer {
        Got::Length(length) => {
            let _ = print!(stdout; " length {length}");
        }
        Got::Absent => text(stdout, b" absent"),
        Got::Refused(number) => refused(stdout, number),
    }
}
