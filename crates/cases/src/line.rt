// What the lines say: a name, of which the first eight letters count, and numbers. A line that ends in a colon is a call.
use orderset::State;
use show::lines::{low_half, parse_numbers, until};

// How many bytes, heads and next numbers a call is lent, the first ones of each.
#[derive(Clone, Copy)]
pub struct Fronts {
    pub image: usize,
    pub heads: usize,
    pub next: usize,
}

// What a line sets.
#[derive(Clone, Copy)]
pub enum Part {
    // byte PLACE BYTE: a byte of the image
    Byte { place: usize, byte: u8 },
    // lend BYTES HEADS NEXT: how much of these a call is lent
    Lend(Fronts),
    // index HEAD NEXT NEXT NEXT: the first head, and the next numbers of slots 1 to 3
    Index { head: u32, next: [u32; 3] },
    // state FIRST LAST LIVE VERSION
    State(State),
    // store NUMBER WORD: the word of one of the sixteen stores
    Store { number: usize, word: u32 },
}

// What a line calls.
#[derive(Clone, Copy)]
pub enum Call {
    // format:
    Format,
    // recover: the state and the invalidating stores, if any, or the refusal, and the index
    Recover,
    // open COUNT: the play of so many of the invalidating stores of the last recovery that was not refused: the answer,
    // and how many bytes it changed
    Open { count: usize },
    // play COUNT COUNT: the answer, and how many bytes it changed
    Play { first: usize, second: usize },
    // list WORD WORD VALUES: the play of a list that puts 513 and 2^64 - 1 into these words, with so many of the two
    // values
    List { words: [u32; 2], values: usize },
    // get KEY LENGTH: the answers of locate and of get, and words 0, 1, 2 and 9 of 80 bytes of which so many were lent
    Get { key: u64, length: usize },
    // stores: their words and, on a line below, their values
    Stores,
    // word PLACE: a word of the image
    Word { place: usize },
    // total: what was ordered, filled and withdrawn by steps whose stores all stand, and what is open of orders 1 to 4
    Total,
    // the answer, the state and the index
    Change(Change),
}

// A call that hands out stores.
#[derive(Clone, Copy)]
pub enum Change {
    // insert KEY LENGTH BYTE: the value is so many of this byte
    Insert { key: u64, length: usize, byte: u8 },
    // replace KEY LENGTH BYTE
    Replace { key: u64, length: usize, byte: u8 },
    // remove KEY
    Remove { key: u64 },
    // new KEY QUANTITY
    New { key: u64, quantity: u64 },
    // acknowledge KEY
    Acknowledge { key: u64 },
    // fill KEY QUANTITY
    Fill { key: u64, quantity: u64 },
    // withdraw KEY
    Withdraw { key: u64 },
    // a call of another name, which is refused with 0
    Unknown,
}

// The name: the letters at the front, at most eight.
fn name_of(line: &[u8]) -> &[u8] {
    &line[..until(line, 0, b'a').min(8)]
}

fn low_byte(n: u64) -> u8 {
    (n & 0xff) as u8
}

// The part that a line sets, if it names one.
pub fn part_of(line: &[u8]) -> Option<Part> {
    let [_, a, b, c, d] = parse_numbers(line);
    match name_of(line) {
        b"byte" => Some(Part::Byte {
            place: a as usize,
            byte: low_byte(b),
        }),
        b"lend" => Some(Part::Lend(Fronts {
            image: a as usize,
            heads: b as usize,
            next: c as usize,
        })),
        b"index" => Some(Part::Index {
            head: low_half(a),
            next: [low_half(b), low_half(c), low_half(d)],
        }),
        b"state" => Some(Part::State(State {
            first: low_half(a),
            last: low_half(b),
            live: low_half(c),
            newest: 0,
            version: d,
        })),
        b"store" => Some(Part::Store {
            number: a as usize,
            word: low_half(b),
        }),
        _ => None,
    }
}

fn change_of(name: &[u8], key: u64, quantity: u64, byte: u8) -> Change {
    let length = (quantity % 82) as usize;
    match name {
        b"insert" => Change::Insert { key, length, byte },
        b"replace" => Change::Replace { key, length, byte },
        b"remove" => Change::Remove { key },
        b"new" => Change::New { key, quantity },
        b"acknowle" => Change::Acknowledge { key },
        b"fill" => Change::Fill { key, quantity },
        b"withdraw" => Change::Withdraw { key },
        _ => Change::Unknown,
    }
}

// What a line calls.
pub fn call_of(line: &[u8]) -> Call {
    let [_, a, b, c, _] = parse_numbers(line);
    match name_of(line) {
        b"format" => Call::Format,
        b"recover" => Call::Recover,
        b"open" => Call::Open { count: a as usize },
        b"play" => Call::Play {
            first: a as usize,
            second: b as usize,
        },
        b"list" => Call::List {
            words: [(a % 65536) as u32, (b % 65536) as u32],
            values: c as usize,
        },
        b"get" => Call::Get {
            key: a,
            length: (b % 81) as usize,
        },
        b"stores" => Call::Stores,
        b"word" => Call::Word { place: a as usize },
        b"total" => Call::Total,
        name => Call::Change(change_of(name, a, b, low_byte(c))),
    }
}
