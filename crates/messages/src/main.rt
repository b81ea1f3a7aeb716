// Prints the lines of its input and carries them out on a log of at most three cells: appends, recoveries, reads, plays
// and cuts. A line is a name and numbers. One that ends in a colon is a call, and what it answers is printed after it;
// another sets a part of the log or, if it has no such name, is only printed.
#![tactic(auto)]

mod actions;
mod cut;
mod lent;
mod line;

use lent::Log;
use line::{Call, Part, log_part, message_call};
use show::input::read_full;
use show::lines::{is_asked, without_end};
use std::io::Stdout;

fn run_message_call(log: &mut Log, stdout: Stdout, call: Call) {
    match call {
        Call::Append { length, byte, step } => {
            log.append_message(stdout, length, byte, step);
        }
        Call::After {
            last,
            length,
            byte,
            step,
        } => log.append_message_after(stdout, last, length, byte, step),
        Call::Recover => log.recover_area(stdout),
        Call::Play => log.play_log(stdout),
        Call::Cut { group, counts } => {
            log.cut_stores(group, counts);
            log.play_log(stdout);
        }
        Call::Read { number } => log.show_part(stdout, number),
        Call::Stores { count } => log.show_log_stores(stdout, count),
        Call::Word { place } => log.show_area_word(stdout, place),
    }
}

fn set_log_part(log: &mut Log, part: Part) {
    match part {
        Part::Lend { area, at, value } => log.lend_fronts(area, at, value),
        Part::Fill { place, count, byte } => log.fill_area(place, count, byte),
    }
}

fn run_message_line(log: &mut Log, stdout: Stdout, line: &[u8]) {
    show::text(stdout, line);
    if is_asked(line) {
        if let Some(call) = message_call(line) {
            run_message_call(log, stdout, call);
        }
    } else if let Some(part) = log_part(line) {
        set_log_part(log, part);
    }
    show::text(stdout, b"\n");
}

fn run_messages(stdout: Stdout, input: &[u8]) {
    let mut log = Log::default();
    for line in input.split_inclusive(|byte| *byte <= b'\n') {
        run_message_line(&mut log, stdout, without_end(line));
    }
}

fn main(rt: HostRuntime) {
    let mut input = [0; 16384];
    let n = read_full(rt.stdin(), &mut input);
    run_messages(rt.stdout(), &input[..n]);
}
