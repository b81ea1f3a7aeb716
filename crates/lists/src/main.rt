// Prints the lines of its input and carries them out twice: by the forms of the calls that take number slices, on one
// image or log area, and by those that take a list of stores, on another. A line is a name and numbers; one with
// another name is only printed. Of a call both answers are printed, the first form's first, and then how many first
// entries of the lists, of 48, or after a play how many first bytes, of 2,176, are equal; after a basket both states
// and indexes.
#![tactic(auto)]

mod both;
mod form;
mod image;
mod line;

use both::Both;
use line::{Call, list_call};
use show::input::read_full;
use show::lines::without_end;
use std::io::Stdout;

fn run_list_call(both: &mut Both, stdout: Stdout, call: Call) {
    match call {
        Call::Format { slots, layout } => both.format_both(stdout, slots, layout),
        Call::Area { cells } => both.make_area(cells),
        Call::Item(line) => both.basket.name_item(line),
        Call::Basket => both.run_both_baskets(stdout),
        Call::Append { length, byte } => both.append_both(stdout, length, byte),
        Call::Recover => both.recover_both(stdout),
        Call::Keep { count } => both.keep_stores(count),
        Call::Play => both.play_both(stdout),
        Call::Entry { place } => both.show_entry(stdout, place),
    }
}

fn run_list_line(both: &mut Both, stdout: Stdout, line: &[u8]) {
    show::text(stdout, line);
    if let Some(call) = list_call(line) {
        run_list_call(both, stdout, call);
    }
    show::text(stdout, b"\n");
}

fn run_lists(stdout: Stdout, input: &[u8]) {
    let mut both = Both::default();
    for line in input.split_inclusive(|byte| *byte <= b'\n') {
        run_list_line(&mut both, stdout, without_end(line));
    }
}

fn main(rt: HostRuntime) {
    let mut input = [0; 4096];
    let n = read_full(rt.stdin(), &mut input);
    run_lists(rt.stdout(), &input[..n]);
}
