// The filling of the lent lists: at has the word numbers of the stores, value their values.
ghost use Rattle.std.specs.Prelude.{◌≡◌, ℕ, ◌+◌, ◌*◌, ◌≤◌, ◌<◌, ◌^◌, length};
ghost use Rattle.refusals.specs.Number.{fault_in};
ghost use Rattle.words.specs.Word.{word};
ghost use Rattle.stores.specs.Written.{marked, run};
ghost use Rattle.message_log.specs.LogOutcome.{short_fault};
ghost use Rattle.message_log.specs.Append.{message_line, marked_body, payloads_from, message_stores};
ghost use Rattle.message_log.specs.inner.Needs.{Filled, MarkedRoom, LineRoom, PayloadRoom, MessageRoom};

use layout_line_code::line::{first_word, last_word};
use log_cell_code::bit::{differing_word, store_count};
use refusals::Refusal;
use words_code::{padded_word, read_word};

// The refusal 13, where a list is shorter than the stores.
pub fn check_room(count: usize, ats: usize, vals: usize) -> Result<(), Refusal>
    ensures result { fault_in result ≡ short_fault count ats vals }
{
    if ats < count || vals < count {
        return Err(Refusal::BufferTooShort);
    }
    Ok(())
}

// Word i of the marked line of a message, over a line with this stamp.
fn marked_word(stamp: u64, number: u64, size: usize, pairs: u64, i: usize) -> u64
    requires { number < 2 ^ 63 }
    ensures { result ≡ marked stamp number (marked_body size pairs) i }
{
    match i {
        0 => first_word(stamp),
        1 => size as u64,
        2 => pairs,
        7 => last_word(stamp, number),
        _ => 0,
    }
}

// The eight stores of the marked line of cell c, at the front of the lists.
fn fill_marked(
    at: &mut [u32],
    value: &mut [u64],
    c: usize,
    stamp: u64,
    number: u64,
    size: usize,
    pairs: u64,
)
    requires { MarkedRoom (length at.old) (length value.old) c number }
    ensures { Filled at.old value.old at.new value.new 0
        (run (8 * (7 * c)) (marked stamp number (marked_body size pairs)) 0 8) }
{
    for j in 0..8 {
        at[j] = (8 * (7 * c) + j) as u32;
        value[j] = marked_word(stamp, number, size, pairs, j);
    }
}

// The stores of the first count words of payload line i, which is line n of the area, from position from of the lists
// on.
fn fill_line(
    at: &mut [u32],
    value: &mut [u64],
    from: usize,
    n: usize,
    message: &[u8],
    i: usize,
    count: usize,
)
    requires { LineRoom (length at.old) (length value.old) from n i count }
    ensures { Filled at.old value.old at.new value.new from
        (run (8 * n) (message_line message.now i) 0 count) }
{
    for j in 0..count {
        at[from + j] = (8 * n + j) as u32;
        value[from + j] = padded_word(message, 8 * i + j);
    }
}

// The stores of the six payload lines of a message for cell c, from position 8 of the lists on.
fn fill_payload(area: &[u8], message: &[u8], at: &mut [u32], value: &mut [u64], c: usize)
    requires { PayloadRoom area.now message.now c (length at.old) (length value.old) }
    ensures { Filled at.old value.old at.new value.new 8
        (payloads_from (word area.now) c message.now 0 6) }
{
    let mut k = 8;
    for i in 0..6 {
        let n = 7 * c + 1 + i;
        let count = store_count(differing_word(area, n, message, i));
        fill_line(at, value, k, n, message, i, count);
        k += count;
    }
}

// All stores of a message with this number for cell c, at the front of the lists. pairs is word 2 of its marked line.
pub fn fill_message(
    area: &[u8],
    message: &[u8],
    at: &mut [u32],
    value: &mut [u64],
    c: usize,
    number: u64,
    pairs: u64,
)
    requires { MessageRoom area.now message.now c number pairs (length at.old) (length value.old) }
    ensures result { Filled at.old value.old at.new value.new 0
        (message_stores (word area.now) c number message.now) }
{
    let stamp = read_word(area, 8 * (7 * c) + 7);
    fill_marked(at, value, c, stamp, number, message.len(), pairs);
    fill_payload(area, message, at, value, c);
}
