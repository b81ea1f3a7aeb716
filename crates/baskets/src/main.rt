// Prints the lines of its input and carries them out on a set of at most sixteen slots: baskets, single calls, plays,
// cuts and recoveries with their invalidating stores. A line is a name and numbers. One that ends in a colon is a call,
// and what it answers and leaves is printed after it; another names an item of the basket to come, sets a part of the
// set or, if it has no such name, is only printed.
#![tactic(auto)]

mod basket;
mod handed;
mod image;
mod item;
mod line;
mod set;
mod setup;
mod single;

use line::{Call, set_call, set_part};
use set::Set;
use show::input::read_full;
use show::lines::{is_asked, without_end};
use std::io::Stdout;

fn run_basket_call(set: &mut Set, stdout: Stdout, call: Call) {
    match call {
        Call::Single(line) => set.run_single(stdout, line),
        Call::Basket => set.run_basket(stdout),
        Call::Format { slots, heads } => set.format_set(stdout, slots, heads),
        Call::Recover => set.recover_set(stdout),
        Call::Get { key } => set.show_get(stdout, key),
        Call::Stores { count } => set.handed.show_front(stdout, count as usize),
        Call::Word { place } => set.show_image_word(stdout, place),
        Call::Play => {
            let handed = set.handed;
            set.play_stores_of(stdout, &handed);
        }
        Call::Cut { counts } => {
            let left = set.handed.standing(counts);
            set.play_stores_of(stdout, &left);
        }
    }
}

fn run_basket_line(set: &mut Set, stdout: Stdout, line: &[u8]) {
    show::text(stdout, line);
    if is_asked(line) {
        if let Some(call) = set_call(line) {
            run_basket_call(set, stdout, call);
        }
    } else if let Some(part) = set_part(line) {
        set.set_up_part(part);
    }
    show::text(stdout, b"\n");
}

fn run_baskets(stdout: Stdout, input: &[u8]) {
    let mut set = Set::default();
    for line in input.split_inclusive(|byte| *byte <= b'\n') {
        run_basket_line(&mut set, stdout, without_end(line));
    }
}

fn main(rt: HostRuntime) {
    let mut input = [0; 16384];
    let n = read_full(rt.stdin(), &mut input);
    run_baskets(rt.stdout(), &input[..n]);
}
