// The value of a record goes into its stores, a word a step. `l` is the layout.
ghost use Rattle.std.specs.Prelude.{◌≡◌, ◌+◌, ◌*◌, ◌<◌, ◌≤◌, length, set};
ghost use Rattle.words.specs.Word.{word};
ghost use Rattle.layout.specs.Record.{Layout, limit, value_place};
ghost use Rattle.layout.specs.Moved.{words_moved};
ghost use Rattle.stores.specs.inner.Written.{with_value};

use layout_code::value::value_place;
use words_code::{padded_word, read_word};

// Step i for a whole word: word i of the value goes to its place among the sixteen from position from on. It answers the
// number of the next step, so that the moving itself counts its steps (document 02, A.3).
fn fill_word(l: usize, value: &[u8], words: &mut [u64], from: usize, i: usize) -> usize
    requires { Layout l × (length value.now ≤ limit l) × (8 * i + 8 ≤ length value.now) × (from + 16 ≤ length words.old) }
    ensures { (result ≡ i + 1) × (words.new ≡ set words.old (from + value_place l i) (word value.now i)) }
{
    let place = value_place(l, i);
    words[from + place] = read_word(value, i);
    i + 1
}

// Step i for the bytes that are left; the next step is counted as by `fill_word`.
fn fill_rest(l: usize, value: &[u8], words: &mut [u64], from: usize, i: usize) -> usize
    requires { Layout l × (length value.now ≤ limit l) × (8 * i < length value.now) × (from + 16 ≤ length words.old) }
    ensures { (result ≡ i + 1) × (words.new ≡ set words.old (from + value_place l i) (word value.now i)) }
{
    let place = value_place(l, i);
    words[from + place] = padded_word(value, i);
    i + 1
}

// The words of the value go to their places among the sixteen from position from on: first the whole ones, so that a
// step tests nothing but their number. The count of steps.
pub fn fill_value(l: usize, value: &[u8], words: &mut [u64], from: usize) -> usize
    requires { Layout l × (length value.now ≤ limit l) × (from + 16 ≤ length words.old) }
    ensures result { (result ≡ words_moved (length value.now)) ×
        (words.new ≡ with_value l value.now from (words_moved (length value.now)) words.old) }
{
    let whole = value.len() / 8;
    let mut i = 0;
    for _ in 0..whole {
        i = fill_word(l, value, words, from, i);
    }
    if 8 * i < value.len() {
        return fill_rest(l, value, words, from, i);
    }
    i
}
