// The 16 stores of a record. `l` is the layout; a key is two words, the high one 0 in layout 1.
ghost use Rattle.std.specs.Prelude.{◌≡◌, [], ◌∷◌, ◌+◌, ◌*◌, ◌^◌, ◌≤◌, ◌<◌, length};
ghost use Rattle.words.specs.Word.{word};
ghost use Rattle.layout.specs.Record.{Layout, key_with, key_word, kind_word};
ghost use Rattle.layout.specs.Moved.{words_moved};
ghost use Rattle.stores.specs.Store.{zipped};
ghost use Rattle.stores.specs.Written.{body_a, record_stores};
ghost use Rattle.stores.specs.Play.{word_numbers, values};
ghost use Rattle.stores.specs.inner.Written.{record_numbers, record_words, pasted};
ghost use Rattle.stores.specs.inner.Needs.{Recordable};

use crate::value::fill_value;
use layout_line_code::line::{first_word, last_word};
use words_code::read_word;

// Word i of a key.
fn key_word(low: u64, high: u64, i: usize) -> u64
    requires { i < 2 }
    ensures { result ≡ key_word (key_with low high) i }
{
    if i == 0 { low } else { high }
}

// The kind word.
fn kind_word(kind: u64, size: usize, number: u64) -> u64
    requires { (kind < 256) × (size < 256) × (number < 256) }
    ensures { result ≡ kind_word kind size number }
{
    kind + 256 * (size as u64) + 65536 * number
}

// Word i of line A, between mark and stamp, of a record without a value whose kind word is w.
fn frame_word(l: usize, low: u64, high: u64, w: u64, i: usize) -> u64
    requires { Layout l × (1 ≤ i) × (i ≤ 6) }
    ensures { result ≡ body_a l (key_with low high) w 0 [] i }
{
    if i < l + 1 {
        key_word(low, high, i - 1)
    } else if i == l + 1 {
        w
    } else {
        0
    }
}

// The word numbers of the stores for slot s, from position from on.
fn fill_numbers(s: u32, at: &mut [u32], from: usize)
    requires { (s < 65536) × (from + 16 ≤ length at.old) }
    ensures { at.new ≡ pasted at.old from (record_numbers s) 16 }
{
    for k in 0..16 {
        at[from + k] = 16 * s + k as u32;
    }
}

// The eight values of a line, from position from on: words 4 to 6 are zero. An index for each: for std's copy_from_slice
// the compiler makes a test whether the two places overlap.
fn put_line(words: &mut [u64], from: usize, mark: u64, one: u64, two: u64, three: u64, stamp: u64)
    requires { from + 8 ≤ length words.old }
    ensures { words.new ≡ pasted words.old from (mark ∷ one ∷ two ∷ three ∷ 0 ∷ 0 ∷ 0 ∷ stamp ∷ []) 8 }
{
    words[from] = mark;
    words[from + 1] = one;
    words[from + 2] = two;
    words[from + 3] = three;
    words[from + 4] = 0;
    words[from + 5] = 0;
    words[from + 6] = 0;
    words[from + 7] = stamp;
}

// The values of the stores of a record without a value whose kind word is w, over lines with stamps a and b, from
// position from on. Only words 2 and 3 of line A depend on the layout.
fn fill_frame(
    l: usize,
    a: u64,
    b: u64,
    low: u64,
    high: u64,
    w: u64,
    version: u64,
    words: &mut [u64],
    from: usize,
)
    requires { Layout l × (version < 2 ^ 63) × (from + 16 ≤ length words.old) }
    ensures { words.new ≡ pasted words.old from (record_words l a b (key_with low high) w 0 [] version) 16 }
{
    let two = frame_word(l, low, high, w, 2);
    let three = frame_word(l, low, high, w, 3);
    put_line(
        words,
        from,
        first_word(a),
        low,
        two,
        three,
        last_word(a, version),
    );
    put_line(
        words,
        from + 8,
        first_word(b),
        0,
        0,
        0,
        last_word(b, version),
    );
}

// The stores of a record for slot s of the image, as entries from to from + 15 of two lists: those without a value, and
// then the value is moved in. number is that of the records which share the version, 0 for one alone. The count of
// words moved.
pub fn record_stores_at(
    image: &[u8],
    l: usize,
    s: u32,
    low: u64,
    high: u64,
    kind: u64,
    number: u64,
    value: &[u8],
    version: u64,
    at: &mut [u32],
    words: &mut [u64],
    from: usize,
) -> usize
    requires { Recordable l kind number value.now version × (s < 65536) × (128 * (s + 1) ≤ length image.now) × (from + 16 ≤ length at.old) ×
        (from + 16 ≤ length words.old) }
    ensures stores { (at.new
        ≡ pasted at.old from
        (word_numbers (record_stores l (word image.now) s (key_with low high) kind number value.now version)) 16)
        × (words.new
        ≡ pasted words.old from
        (values (record_stores l (word image.now) s (key_with low high) kind number value.now version)) 16) }
    ensures moved { result ≡ words_moved (length value.now) }
{
    let slot = s as usize;
    let a = read_word(image, 16 * slot + 7);
    let b = read_word(image, 16 * slot + 15);
    fill_numbers(s, at, from);
    let w = kind_word(kind, value.len(), number);
    fill_frame(l, a, b, low, high, w, version, words, from);
    fill_value(l, value, words, from)
}

// The stores of one record for slot s of the image. The count of words moved.
pub fn record_stores(
    image: &[u8],
    l: usize,
    s: u32,
    low: u64,
    high: u64,
    kind: u64,
    number: u64,
    value: &[u8],
    version: u64,
    at: &mut [u32; 16],
    words: &mut [u64; 16],
) -> usize
    requires { Recordable l kind number value.now version × (s < 65536) × (128 * (s + 1) ≤ length image.now) }
    ensures stores { zipped at.new words.new
        ≡ record_stores l (word image.now) s (key_with low high) kind number value.now version }
    ensures moved { result ≡ words_moved (length value.now) }
{
    record_stores_at(
        image, l, s, low, high, kind, number, value, version, at, words, 0,
    )
}

// The stores of a remove for slot s of the image: no value is moved.
pub fn remove_stores(
    image: &[u8],
    l: usize,
    s: u32,
    low: u64,
    high: u64,
    number: u64,
    version: u64,
    at: &mut [u32; 16],
    words: &mut [u64; 16],
)
    requires { Layout l × (number < 256) × (version < 2 ^ 63) × (s < 65536) × (128 * (s + 1) ≤ length image.now) }
    ensures result { zipped at.new words.new
        ≡ record_stores l (word image.now) s (key_with low high) 2 number [] version }
{
    let slot = s as usize;
    let a = read_word(image, 16 * slot + 7);
    let b = read_word(image, 16 * slot + 15);
    fill_numbers(s, at, 0);
    let w = kind_word(2, 0, number);
    fill_frame(l, a, b, low, high, w, version, words, 0);
}
