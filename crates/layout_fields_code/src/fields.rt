// The fields of the record in a slot, and its fault: 6, 22, 23 or 24. `l` is the layout.
ghost use Rattle.std.specs.Prelude.{◌≡◌, ◌+◌, ◌*◌, ◌≤◌, eqb, length};
ghost use Rattle.words.specs.Word.{word};
ghost use Rattle.refusals.specs.Number.{fault_in};
ghost use Rattle.layout.specs.Line.{line_a, line_b};
ghost use Rattle.layout.specs.Record.{key_of, key_with, kind_of, length_of, size_field, limit};
ghost use Rattle.layout.specs.Layouts.{layout_number};
ghost use Rattle.layout.specs.Fault.{bits_fault, kind_fault, kind_limit, word_fault, tail_fault, fault_of};
ghost use Rattle.layout.specs.inner.Inside.{SlotInside};
ghost use Rattle.layout.specs.inner.Key.{high_word};

use layout_code::value::value_word;
use refusals::Refusal;
use words_code::read_word;

// The low word of the key in slot s.
pub fn slot_low(image: &[u8], s: usize) -> u64
    requires { 128 * (s + 1) ≤ length image.now }
    ensures result { result ≡ line_a (word image.now) s 1 }
{
    read_word(image, 16 * s + 1)
}

// The high word of the key in slot s, 0 in layout 1.
pub fn slot_high(image: &[u8], l: usize, s: usize) -> u64
    requires { SlotInside image.now l s }
    ensures result { result ≡ high_word l (line_a (word image.now) s) }
{
    if l == 1 {
        0
    } else {
        read_word(image, 16 * s + 2)
    }
}

// Is the key with these words that of slot s?
pub fn has_key(image: &[u8], l: usize, s: usize, low: u64, high: u64) -> bool
    requires { SlotInside image.now l s }
    ensures result { result ≡ eqb (key_of l (line_a (word image.now) s)) (key_with low high) }
{
    slot_low(image, s) == low && slot_high(image, l, s) == high
}

// The kind word of slot s.
fn slot_kind_word(image: &[u8], l: usize, s: usize) -> u64
    requires { SlotInside image.now l s }
    ensures { result ≡ line_a (word image.now) s (l + 1) }
{
    read_word(image, 16 * s + l + 1)
}

// The kind in a kind word: 1 put, 2 remove.
fn kind_of(w: u64) -> u64
    ensures { result ≡ kind_of w }
{
    w % 256
}

// The length in a kind word.
fn length_of(w: u64) -> usize
    ensures { result ≡ length_of w }
{
    (w / 256 % 256) as usize
}

// The number of the layout: 2 where keys are wide, of 16 bytes, else 1.
pub fn layout_number(wide: bool) -> usize
    ensures result { result ≡ layout_number wide }
{
    if wide { 2 } else { 1 }
}

// The greatest length of a value.
pub fn value_limit(l: usize) -> usize
    requires { l ≤ 2 }
    ensures result { result ≡ limit l }
{
    88 - 8 * l
}

// The kind in slot s.
pub fn slot_kind(image: &[u8], l: usize, s: usize) -> u64
    requires { SlotInside image.now l s }
    ensures result { result ≡ kind_of (line_a (word image.now) s (l + 1)) }
{
    kind_of(slot_kind_word(image, l, s))
}

// The length of the value in slot s.
pub fn slot_length(image: &[u8], l: usize, s: usize) -> usize
    requires { SlotInside image.now l s }
    ensures result { result ≡ length_of (line_a (word image.now) s (l + 1)) }
{
    length_of(slot_kind_word(image, l, s))
}

// The number in slot s: of how many records share its version.
pub fn slot_number(image: &[u8], l: usize, s: usize) -> u64
    requires { SlotInside image.now l s }
    ensures result { result ≡ size_field (line_a (word image.now) s (l + 1)) }
{
    slot_kind_word(image, l, s) / 65536 % 256
}

// Is a bit above bit 23 set, or is the number 1 or over 8?
fn bits_fault(w: u64) -> bool
    ensures { result ≡ bits_fault w }
{
    if 16777216 <= w {
        return true;
    }
    let number = w / 65536 % 256;
    if number == 1 {
        return true;
    }
    8 < number
}

// Is it another kind than put and remove?
fn kind_fault(kind: u64) -> bool
    ensures { result ≡ kind_fault kind }
{
    if kind == 1 {
        return false;
    }
    if kind == 2 {
        return false;
    }
    true
}

// The greatest length of a record of this kind: a remove has none.
fn kind_limit(l: usize, kind: u64) -> usize
    requires { l ≤ 2 }
    ensures { result ≡ kind_limit l kind }
{
    if kind != 2 {
        return value_limit(l);
    }
    0
}

// The fault of the kind word by itself: 6, 22 or 23.
fn check_kind_word(l: usize, w: u64) -> Result<(), Refusal>
    requires { l ≤ 2 }
    ensures { fault_in result ≡ word_fault l w }
{
    if bits_fault(w) {
        return Err(Refusal::BadKindBits);
    }
    let kind = kind_of(w);
    if kind_fault(kind) {
        return Err(Refusal::BadKind);
    }
    if kind_limit(l, kind) < length_of(w) {
        return Err(Refusal::BadValueLength);
    }
    Ok(())
}

// Is a byte of the value from position size on not zero? Word by word, the first one from position size % 8 on.
fn tail_fault(image: &[u8], l: usize, s: usize, size: usize) -> bool
    requires { SlotInside image.now l s × (size ≤ limit l) }
    ensures { result ≡ tail_fault l (line_a (word image.now) s) (line_b (word image.now) s) size }
{
    let words = 11 - l;
    let mut i = size / 8;
    let mut bits: u64 = 8 * ((size % 8) as u64);
    while i < words {
        let w = value_word(image, l, s, i);
        if w >> bits != 0 {
            return true;
        }
        bits = 0;
        i += 1;
    }
    false
}

// The fault of the record in slot s: 6, 22, 23 or 24. Asked of valid slots.
pub fn check_record(image: &[u8], l: usize, s: usize) -> Result<(), Refusal>
    requires { SlotInside image.now l s }
    ensures result { fault_in result ≡ fault_of l (line_a (word image.now) s) (line_b (word image.now) s) }
{
    let w = slot_kind_word(image, l, s);
    check_kind_word(l, w)?;
    if tail_fault(image, l, s, length_of(w)) {
        return Err(Refusal::BadTail);
    }
    Ok(())
}
