// May a slot be taken? By its version, its kind and its key; `l` is the layout.
ghost use Rattle.std.specs.Prelude.{◌≡◌, ◌+◌, ◌*◌, ◌≤◌, length};
ghost use Rattle.words.specs.Word.{word};
ghost use Rattle.prelude.specs.Range.{any_of, greatest};
ghost use Rattle.layout.specs.Record.{Layout, key_with};
ghost use Rattle.layout.specs.Content.{contents_of};
ghost use Rattle.layout.specs.inner.Inside.{SlotInside};
ghost use Rattle.allocation.specs.inner.Takeable.{slot_version, older_than, low_put, takeable};

use layout::Verdict;
use layout_fields_code::fields::{has_key, slot_high, slot_kind, slot_low};
use layout_line_code::slot::slot_verdict;
use words_code::read_word;

// The version of slot s where it is valid, else 0.
pub fn valid_version(image: &[u8], s: usize) -> u64
    requires { 128 * (s + 1) ≤ length image.now }
    ensures result { result ≡ slot_version (word image.now) s }
{
    match slot_verdict(image, s) {
        Verdict::Valid(version) => version,
        Verdict::Empty | Verdict::Broken(_) => 0,
    }
}

// The highest version of the valid slots 1 to n, 0 if there is none.
pub fn highest_valid(image: &[u8], n: usize) -> u64
    requires { 128 * (n + 1) ≤ length image.now }
    ensures result { result ≡ greatest (slot_version (word image.now)) n }
{
    let mut top = 0;
    for s in 1..n + 1 {
        top = top.max(valid_version(image, s));
    }
    top
}

// Does slot t have a valid record of this key that is older than this version?
pub fn is_older(image: &[u8], l: usize, t: usize, low: u64, high: u64, version: u64) -> bool
    requires { SlotInside image.now l t }
    ensures result { result ≡ older_than (contents_of l image.now) (key_with low high) version t }
{
    if !has_key(image, l, t, low, high) {
        return false;
    }
    let found = valid_version(image, t);
    found != 0 && found < version
}

// Does any of the slots 1 to n?
fn has_older(image: &[u8], l: usize, n: usize, low: u64, high: u64, version: u64) -> bool
    requires { Layout l × (128 * (n + 1) ≤ length image.now) }
    ensures { result ≡ any_of (older_than (contents_of l image.now) (key_with low high) version) 1 n }
{
    (1..n + 1).any(|t| is_older(image, l, t, low, high, version))
}

// Is slot s below this version by its line A, and no remove record? Then it may be taken, valid or not.
pub fn is_low(image: &[u8], l: usize, s: usize, top: u64) -> bool
    requires { SlotInside image.now l s }
    ensures result { result ≡ low_put l (word image.now) top s }
{
    read_word(image, 16 * s + 7) / 2 < top && slot_kind(image, l, s) != 2
}

// May slot s be taken, where no valid record of version `top` or above may? Of a remove record an older record of its
// key is looked for only where scan says so.
fn is_takeable(image: &[u8], l: usize, n: usize, top: u64, scan: bool, s: usize) -> bool
    requires { SlotInside image.now l s × (128 * (n + 1) ≤ length image.now) }
    ensures { result ≡ takeable (contents_of l image.now) n top scan s }
{
    match valid_version(image, s) {
        0 => true,
        version if top <= version => false,
        _ if slot_kind(image, l, s) != 2 => true,
        version if scan => {
            let low = slot_low(image, s);
            let high = slot_high(image, l, s);
            !has_older(image, l, n, low, high, version)
        }
        _ => false,
    }
}

// The same, mostly by line A alone.
pub fn may_take(image: &[u8], l: usize, n: usize, top: u64, scan: bool, s: usize) -> bool
    requires { SlotInside image.now l s × (128 * (n + 1) ≤ length image.now) }
    ensures result { result ≡ takeable (contents_of l image.now) n top scan s }
{
    is_low(image, l, s, top) || is_takeable(image, l, n, top, scan, s)
}
