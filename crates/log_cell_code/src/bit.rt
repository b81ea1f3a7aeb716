// The flexible validity bit of a payload line. n is the line's number in the area, i its number in the cell.
ghost use Rattle.std.specs.Prelude.{◌≡◌, ℕ, ◌+◌, ◌*◌, ◌≤◌, ◌<◌, length};
ghost use Rattle.std.specs.Int.Bits.{bit_xor};
ghost use Rattle.std.specs.Int.Count.{count_trailing_zeros};
ghost use Rattle.words.specs.Word.{word};
ghost use Rattle.layout.specs.Line.{line};
ghost use Rattle.message_log.specs.Bit.{bit_at, differing_place, store_count, bit_pair};
ghost use Rattle.message_log.specs.Message.{pair_differs};
ghost use Rattle.message_log.specs.Append.{message_line};
ghost use Rattle.message_log.specs.inner.Needs.{LineInside, Pairable};

use words_code::{padded_word, read_word};

// The place of the word in which old and new differ, or 8 where the lines are equal: the words are compared from word 7
// down, and the search ends at the first that differs. Past the message's end the new line is zeros. The loop yields the
// place by break, the form of document 01.
pub fn differing_word(area: &[u8], n: usize, message: &[u8], i: usize) -> usize
    requires { LineInside (length area.now) n i }
    ensures result { result ≡ differing_place 8 (line (word area.now) n) (message_line message.now i) }
{
    if message.len() <= 64 * i {
        return nonzero_word(area, n);
    }
    'search: {
        for place in (0..8).rev() {
            if read_word(area, 8 * n + place) != padded_word(message, 8 * i + place) {
                break 'search place;
            }
        }
        8
    }
}

// The same where the new line is zeros: the place of the highest word that is not zero.
fn nonzero_word(area: &[u8], n: usize) -> usize
    requires { 64 * n + 64 ≤ length area.now }
    ensures { result ≡ differing_place 8 (line (word area.now) n) (λ (j : ℕ). 0) }
{
    'search: {
        for place in (0..8).rev() {
            if read_word(area, 8 * n + place) != 0 {
                break 'search place;
            }
        }
        8
    }
}

// How many words of a line are stored: word 0 up to the one at this place, and none of equal lines.
pub fn store_count(place: usize) -> usize
    requires { place ≤ 8 }
    ensures result { result ≡ store_count place }
{
    if place == 8 {
        return 0;
    }
    place + 1
}

// Bit t of x.
fn bit_of(x: u64, t: u32) -> u64
    requires { t < 64 }
    ensures { result ≡ bit_at x t }
{
    (x >> t) % 2
}

// The lowest bit in which the words differ: the trailing zeros of the difference.
fn differing_bit(old: u64, new: u64) -> u32
    ensures { result ≡ count_trailing_zeros 64 (bit_xor old new) }
{
    u64::trailing_zeros(old ^ new)
}

// The pair of a line whose differing word is word j.
fn pair_of(old: u64, new: u64, j: usize) -> u64
    requires { (old ≡ new → ⊥) × (j < 8) }
    ensures { result ≡ 64 * j + count_trailing_zeros 64 (bit_xor old new) + 512 * bit_at new (count_trailing_zeros 64 (bit_xor old new)) }
{
    let t = differing_bit(old, new);
    64 * (j as u64) + (t as u64) + 512 * bit_of(new, t)
}

// The pair of a line whose differing word is at this place; of equal lines it is bit 0 of word 0.
pub fn line_pair(area: &[u8], n: usize, message: &[u8], i: usize, place: usize) -> u64
    requires { Pairable area.now n message.now i place }
    ensures result { result ≡ bit_pair (line (word area.now) n) (message_line message.now i) }
{
    if place == 8 {
        return 512 * (padded_word(message, 8 * i) % 2);
    }
    let old = read_word(area, 8 * n + place);
    let new = padded_word(message, 8 * i + place);
    pair_of(old, new, place)
}

// Is the bit that the pair names in the line not the pair's value?
pub fn pair_differs(area: &[u8], n: usize, pair: u64) -> bool
    requires { (64 * n + 64 ≤ length area.now) × (pair < 1024) }
    ensures result { result ≡ pair_differs pair (line (word area.now) n) }
{
    let position = pair % 512;
    let held = read_word(area, 8 * n + (position / 64) as usize);
    bit_of(held, (position % 64) as u32) != pair / 512
}
