// The lines by their names, each with its numbers.
use crate::cut::Group;
use show::lines::{parse_numbers, until};

// A line that ends in a colon.
#[derive(Clone, Copy)]
pub enum Call {
    // append LENGTH BYTE STEP: the number and the count of stores; byte i of the message is BYTE + i * STEP
    Append {
        length: u64,
        byte: u64,
        step: u64,
    },

    // after LAST LENGTH BYTE STEP: the same by append_after, which is lent this number
    After {
        last: u64,
        length: u64,
        byte: u64,
        step: u64,
    },

    // recover: the highest complete number and the count of stores
    Recover,

    // read NUMBER: the length of the part, and its first and its last word
    Read {
        number: u64,
    },

    // stores COUNT: so many first entries of the lists, word numbers and, on a line below, values
    Stores {
        count: u64,
    },

    // word PLACE: a word of the area
    Word {
        place: u64,
    },

    // play: all stores handed out last; the answer
    Play,

    // lines COUNTS: a cut that leaves so many stores of each line; a digit for each line of a cell, the marked line's
    // last
    // cells COUNTS: the same with a digit for each cell, cell 0's last
    Cut {
        group: Group,
        counts: u64,
    },
}

// Another line.
#[derive(Clone, Copy)]
pub enum Part {
    // lend BYTES NUMBERS VALUES: how much of the area and of the two lists a call is lent
    Lend { area: u64, at: u64, value: u64 },

    // fill PLACE COUNT BYTE: so many bytes of the area become this one
    Fill { place: u64, count: u64, byte: u64 },
}

fn message_name(line: &[u8]) -> &[u8] {
    &line[..until(line, 0, b'a')]
}

// The call that a line names, if there is one.
pub fn message_call(line: &[u8]) -> Option<Call> {
    let [_, first, second, third, fourth] = parse_numbers(line);
    match message_name(line) {
        b"append" => Some(Call::Append {
            length: first,
            byte: second,
            step: third,
        }),
        b"after" => Some(Call::After {
            last: first,
            length: second,
            byte: third,
            step: fourth,
        }),
        b"recover" => Some(Call::Recover),
        b"read" => Some(Call::Read { number: first }),
        b"stores" => Some(Call::Stores { count: first }),
        b"word" => Some(Call::Word { place: first }),
        b"play" => Some(Call::Play),
        b"lines" => Some(Call::Cut {
            group: Group::Line,
            counts: first,
        }),
        b"cells" => Some(Call::Cut {
            group: Group::Cell,
            counts: first,
        }),
        _ => None,
    }
}

// The part of the log that a line sets, if it names one.
pub fn log_part(line: &[u8]) -> Option<Part> {
    let [_, first, second, third, _] = parse_numbers(line);
    match message_name(line) {
        b"lend" => Some(Part::Lend {
            area: first,
            at: second,
            value: third,
        }),
        b"fill" => Some(Part::Fill {
            place: first,
            count: second,
            byte: third,
        }),
        _ => None,
    }
}
