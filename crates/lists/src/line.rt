// The lines by their names, each with its numbers.
use orderset::{Action, Mode};
use show::lines::{parse_numbers, until};

// What insert, replace and remove KEY LENGTH BYTE HIGH name: an item of a basket; every byte of the values becomes BYTE,
// and HIGH is the high word of its key.
#[derive(Clone, Copy)]
pub struct KeyLine {
    pub action: Action,
    pub low: u64,
    pub high: u64,
    pub length: u64,
    pub byte: u64,
}

#[derive(Clone, Copy)]
pub enum Call {
    // format SLOTS LAYOUT: both images are formatted and recovered, with two heads; no item is named
    Format { slots: u64, layout: u64 },

    // area CELLS: both become a log's area of so many cells, all zeros
    Area { cells: u64 },

    // insert, replace, remove: names an item of the basket to come
    Item(KeyLine),

    // basket: the basket of the items named, by number slices and by a list
    Basket,

    // append LENGTH BYTE: a message of so many bytes BYTE, by number slices and by a list
    Append { length: u64, byte: u64 },

    // recover: the log's recovery, by number slices and by a list
    Recover,

    // keep COUNT: of the stores handed out last only so many first ones are left, as after a cut
    Keep { count: u64 },

    // play: the stores handed out last, if any, by number slices and by a list
    Play,

    // entry PLACE: an entry of the two number lists, and of the list of stores
    Entry { place: u64 },
}

// The call that a line names, if there is one.
pub fn list_call(line: &[u8]) -> Option<Call> {
    let [_, first, second, third, fourth] = parse_numbers(line);
    let item = |action| Some(Call::Item(KeyLine {
        action,
        low: first,
        high: fourth,
        length: second,
        byte: third,
    }));
    match &line[..until(line, 0, b'a')] {
        b"format" => Some(Call::Format {
            slots: first,
            layout: second,
        }),
        b"area" => Some(Call::Area { cells: first }),
        b"insert" => item(Action::Write(Mode::Insert)),
        b"replace" => item(Action::Write(Mode::Replace)),
        b"remove" => item(Action::Remove),
        b"basket" => Some(Call::Basket),
        b"append" => Some(Call::Append {
            length: first,
            byte: second,
        }),
        b"recover" => Some(Call::Recover),
        b"keep" => Some(Call::Keep { count: first }),
        b"play" => Some(Call::Play),
        b"entry" => Some(Call::Entry { place: first }),
        _ => None,
    }
}
