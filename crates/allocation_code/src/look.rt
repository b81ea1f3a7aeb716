// One pass over the image for the slots that are chosen: is an older record of the key of a remove record among them
// left? `l` is the layout.
ghost use Rattle.std.specs.Prelude.{◌≡◌, true, false, ◌&&◌, ◌+◌, ◌*◌, ◌≤◌, ltb, length};
ghost use Rattle.words.specs.Word.{word};
ghost use Rattle.prelude.specs.Filter.{any_in};
ghost use Rattle.layout.specs.Record.{Layout};
ghost use Rattle.layout.specs.Content.{contents_of};
ghost use Rattle.layout.specs.inner.Inside.{SlotInside};
ghost use Rattle.allocation.specs.inner.Takeable.{slot_version, older_left};
ghost use Rattle.allocation.specs.inner.Choice.{chosen_of, ChosenInside, Marked, ClearAt, Clear};

use crate::slot::{is_older, valid_version};
use layout_fields_code::fields::{slot_high, slot_kind, slot_low};

// Is slot s a remove record while slot t has an older valid record of its key?
fn is_older_left(image: &[u8], l: usize, s: usize, t: usize) -> bool
    requires { SlotInside image.now l s × SlotInside image.now l t }
    ensures { result ≡ older_left (contents_of l image.now) s t }
{
    slot_kind(image, l, s) == 2
        && is_older(
            image,
            l,
            t,
            slot_low(image, s),
            slot_high(image, l, s),
            valid_version(image, s),
        )
}

// Is one of the first `got` slots?
fn is_older_left_in(image: &[u8], l: usize, slots: [u32; 8], got: usize, t: usize) -> bool
    requires { SlotInside image.now l t × ChosenInside image.now slots got }
    ensures { result ≡ any_in (λ s. older_left (contents_of l image.now) s t) (chosen_of slots got) }
{
    slots[..got]
        .iter()
        .any(|s| is_older_left(image, l, *s as usize, t))
}

// Marks for the low key words of the first `got` slots. A slot without a mark has none of their keys, so the pass
// mostly reads one word of a slot and its mark.
fn key_marks(image: &[u8], slots: [u32; 8], got: usize) -> [u8; 4096]
    requires { ChosenInside image.now slots got }
    ensures { Marked (word image.now) slots result got }
{
    let mut marks = [0; 4096];
    for slot in &slots[..got] {
        let low = slot_low(image, *slot as usize);
        marks[(low % 4096) as usize] = 1;
    }
    marks
}

// Is the version of slot t above the one that is known? Tested only where strict says so.
fn is_version_above(image: &[u8], t: usize, known: u64, strict: bool) -> bool
    requires { 128 * (t + 1) ≤ length image.now }
    ensures { result ≡ strict && ltb known (slot_version (word image.now) t) }
{
    strict && known < valid_version(image, t)
}

// Does slot t have an older valid record of the key of a remove record among the first `got` slots, or, where strict, a
// version above the one that is known?
fn is_left(
    image: &[u8],
    l: usize,
    slots: [u32; 8],
    got: usize,
    marks: &[u8; 4096],
    known: u64,
    strict: bool,
    t: usize,
) -> bool
    requires { SlotInside image.now l t × ChosenInside image.now slots got × Marked (word image.now) slots marks.now got }
    ensures { result ≡ false → ClearAt l image.now slots got known strict t }
{
    is_version_above(image, t, known, strict)
        || marks[(slot_low(image, t) % 4096) as usize] != 0
            && is_older_left_in(image, l, slots, got, t)
}

// Does any of the slots 1 to n?
pub fn is_any_left(
    image: &[u8],
    l: usize,
    n: usize,
    slots: [u32; 8],
    got: usize,
    known: u64,
    strict: bool,
) -> bool
    requires { Layout l × (128 * (n + 1) ≤ length image.now) × ChosenInside image.now slots got }
    ensures result { result ≡ false → Clear l image.now slots got known strict n }
{
    let marks = key_marks(image, slots, got);
    (1..n + 1).any(|t| is_left(image, l, slots, got, &marks, known, strict, t))
}
