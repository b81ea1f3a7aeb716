// Answers as a return code and lent numbers.
ghost use Rattle.std.specs.Prelude.{◌≡◌, ◌*◌};
ghost use Rattle.interface.specs.Set.{change_says, get_says, locate_says};
ghost use Rattle.book.specs.Plain.{refusal_number};
ghost use Rattle.book.specs.Steps.{book_says};
ghost use Rattle.exports.specs.State.{state_from};
ghost use Rattle.exports.specs.Book.{book_answered};
ghost use Rattle.exports.specs.Call.{answered_with, returned_with};

use book::{BookChange, BookOutcome};
use exports_code::refusal::refused_with;
use exports_code::state::keep_state;
use orderset::{Change, GetAnswer, Got, LocateAnswer, Located, Outcome};

// What a call that writes gives back goes into the lent numbers.
pub fn write_answer(
    change: Change,
    state: &mut [u32; 4],
    version: &mut [u64; 1],
    answer: &mut [u64; 4],
) -> u64
    ensures result { (result ≡ returned_with (change_says change.outcome) change.compared) ×
        (answer.new ≡ answered_with 3 (change_says change.outcome) change.compared answer.old) ×
        (state_from state.new version.new ≡ change.state) }
{
    let after = change.state;
    keep_state(after, state, version);
    let outcome = change.outcome;
    match outcome {
        Outcome::Refused(number) => refused_with(number, change.compared),
        Outcome::Absent => {
            *answer = [0, 0, 0, change.compared as u64];
            0
        }
        Outcome::Stored {
            slot,
            version: number,
        } => {
            *answer = [1, slot as u64, number, change.compared as u64];
            0
        }
    }
}

// What a book step gives back goes into the lent numbers.
pub fn write_answer_step(
    change: BookChange,
    state: &mut [u32; 4],
    version: &mut [u64; 1],
    answer: &mut [u64; 3],
) -> u32
    ensures result { (result ≡ refusal_number (book_says change.outcome)) ×
        (answer.new ≡ book_answered (book_says change.outcome) answer.old) ×
        (state_from state.new version.new ≡ change.state) }
{
    let after = change.state;
    keep_state(after, state, version);
    let outcome = change.outcome;
    match outcome {
        BookOutcome::Refused(number) => number,
        BookOutcome::Already {
            slot,
            version: number,
        } => {
            *answer = [2, slot as u64, number];
            0
        }
        BookOutcome::Stored {
            slot,
            version: number,
        } => {
            *answer = [1, slot as u64, number];
            0
        }
    }
}

// What a get gives back goes into the lent numbers.
pub fn write_answer_got(r: GetAnswer, answer: &mut [u64; 3]) -> u64
    ensures result { (result ≡ returned_with (get_says r.got) r.compared) ×
        (answer.new ≡ answered_with 2 (get_says r.got) r.compared answer.old) }
{
    let got = r.got;
    match got {
        Got::Refused(number) => refused_with(number, r.compared),
        Got::Absent => {
            *answer = [0, 0, r.compared as u64];
            0
        }
        Got::Length(length) => {
            *answer = [1, length as u64, r.compared as u64];
            0
        }
    }
}

// What a locate gives back goes into the lent numbers.
pub fn write_answer_located(r: LocateAnswer, answer: &mut [u64; 4]) -> u64
    ensures result { (result ≡ returned_with (locate_says r.located) r.compared) ×
        (answer.new ≡ answered_with 3 (locate_says r.located) r.compared answer.old) }
{
    let located = r.located;
    match located {
        Located::Refused(number) => refused_with(number, r.compared),
        Located::Absent => {
            *answer = [0, 0, 0, r.compared as u64];
            0
        }
        Located::At { slot, version } => {
            *answer = [1, slot as u64, version, r.compared as u64];
            0
        }
    }
}
