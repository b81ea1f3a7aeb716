// Prints the lines of its input and carries them out on a set of at most four slots: the calls of the set and the steps
// of the book, with the image's own index and with others, and with cuts. A line is a name and numbers. One that ends
// in a colon is a call, and what it answers and leaves is printed after it; another sets a part of the set or, if it
// has no such name, is only printed.
#![tactic(auto)]

mod change;
mod image;
mod line;
mod quantities;
mod read;
mod set;

use line::{Call, call_of, part_of};
use set::Set;
use show::input::read_full;
use show::lines::{is_asked, without_end};
use std::io::Stdout;

fn run_call(stdout: Stdout, set: &mut Set, call: Call) {
    match call {
        Call::Format => set.format(stdout),
        Call::Recover => set.recover(stdout),
        Call::Open { count } => set.open(stdout, count),
        Call::Play { first, second } => set.play(stdout, first, second),
        Call::List { words, values } => set.list(stdout, words, values),
        Call::Get { key, length } => set.show_locate_and_get(stdout, key, length),
        Call::Stores => set.show_stores(stdout),
        Call::Word { place } => set.show_word(stdout, place),
        Call::Total => set.show_total(stdout),
        Call::Change(change) => set.change(stdout, change),
    }
}

fn run_line(stdout: Stdout, set: &mut Set, line: &[u8]) {
    show::text(stdout, line);
    if is_asked(line) {
        run_call(stdout, set, call_of(line));
    } else if let Some(part) = part_of(line) {
        set.put(part);
    }
    show::text(stdout, b"\n");
}

fn run_cases(stdout: Stdout, input: &[u8]) {
    let mut set = Set::new();
    for line in input.split_inclusive(|&byte| byte < 11) {
        run_line(stdout, &mut set, without_end(line));
    }
}

fn main(rt: HostRuntime) {
    let mut input = [0; 16384];
    let n = read_full(rt.stdin(), &mut input);
    run_cases(rt.stdout(), &input[..n]);
}
