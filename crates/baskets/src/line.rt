// The lines by their names, each with its numbers.
use orderset::{Action, Mode};
use show::lines::{parse_numbers, until};

// What insert, replace and remove KEY LENGTH BYTE HIGH ask for one key: byte i of its value is BYTE + i, and HIGH is the
// high word of the key.
#[derive(Clone, Copy)]
pub struct KeyLine {
    pub action: Action,
    pub low: u64,
    pub high: u64,
    pub length: u64,
    pub byte: u64,
}

// A line that ends in a colon.
#[derive(Clone, Copy)]
pub enum Call {
    // insert, replace, remove: the single call: the answer, the state and the index
    Single(KeyLine),

    // basket: the basket of the items named: the answer, the state and the index; one that is not refused leaves no
    // item named
    Basket,

    // format SLOTS HEADS: an image of so many slots. All of it is lent, with so many heads and all of the two lists,
    // and no item is named
    Format { slots: u64, heads: u64 },

    // recover: the state and the invalidating stores, if any, or the refusal, and the index; the invalidating stores
    // are put into the lists
    Recover,

    // get KEY: the answer, and words 0, 3, 4 and 9 of the value
    Get { key: u64 },

    // stores COUNT: so many first entries of the lists, word numbers and, on a line below, values
    Stores { count: u64 },

    // word PLACE: a word of the image
    Word { place: u64 },

    // play: all stores handed out last, by a call or by recovery; the answer
    Play,

    // cut COUNTS: a cut that leaves so many of them on each line, counted from the first; a digit for each line, in the
    // order of the stores
    Cut { counts: u64 },
}

// Another line.
#[derive(Clone, Copy)]
pub enum Part {
    // lend BYTES HEADS NEXT: how much of the image and of the index a call is lent
    Lend {
        image: u64,
        heads: u64,
        next: u64,
    },

    // lists NUMBERS VALUES: how much of the two lists a basket is lent
    Lists {
        at: u64,
        value: u64,
    },

    // word PLACE LOW HIGH: a word of the image becomes LOW + 2^32 * HIGH
    Word {
        place: u64,
        low: u64,
        high: u64,
    },

    // head HEAD SLOT: a head of the index
    Head {
        head: u64,
        slot: u64,
    },

    // next SLOT SLOT: the next number of a slot
    Next {
        slot: u64,
        next: u64,
    },

    // state FIRST LAST LIVE VERSION
    State {
        first: u64,
        last: u64,
        live: u64,
        version: u64,
    },

    // clear: no item is named
    Clear,

    // insert, replace, remove: names an item of the basket to come
    Item(KeyLine),
}

fn basket_name(line: &[u8]) -> &[u8] {
    &line[..until(line, 0, b'a')]
}

// What a line asks for one key, if it has the name of such a call.
fn key_line(line: &[u8]) -> Option<KeyLine> {
    let action = match basket_name(line) {
        b"insert" => Action::Write(Mode::Insert),
        b"replace" => Action::Write(Mode::Replace),
        b"remove" => Action::Remove,
        _ => return None,
    };
    let [_, low, length, byte, high] = parse_numbers(line);
    Some(KeyLine {
        action,
        low,
        high,
        length,
        byte,
    })
}

// The call that a line names, if there is one.
pub fn set_call(line: &[u8]) -> Option<Call> {
    let [_, first, second, _, _] = parse_numbers(line);
    match basket_name(line) {
        b"basket" => Some(Call::Basket),
        b"format" => Some(Call::Format {
            slots: first,
            heads: second,
        }),
        b"recover" => Some(Call::Recover),
        b"get" => Some(Call::Get { key: first }),
        b"stores" => Some(Call::Stores { count: first }),
        b"word" => Some(Call::Word { place: first }),
        b"play" => Some(Call::Play),
        b"cut" => Some(Call::Cut { counts: first }),
        _ => key_line(line).map(Call::Single),
    }
}

// The part of the set that a line sets, if it names one.
pub fn set_part(line: &[u8]) -> Option<Part> {
    let [_, first, second, third, fourth] = parse_numbers(line);
    match basket_name(line) {
        b"lend" => Some(Part::Lend {
            image: first,
            heads: second,
            next: third,
        }),
        b"lists" => Some(Part::Lists {
            at: first,
            value: second,
        }),
        b"word" => Some(Part::Word {
            place: first,
            low: second,
            high: third,
        }),
        b"head" => Some(Part::Head {
            head: first,
            slot: second,
        }),
        b"next" => Some(Part::Next {
            slot: first,
            next: second,
        }),
        b"state" => Some(Part::State {
            first,
            last: second,
            live: third,
            version: fourth,
        }),
        b"clear" => Some(Part::Clear),
        _ => key_line(line).map(Part::Item),
    }
}
