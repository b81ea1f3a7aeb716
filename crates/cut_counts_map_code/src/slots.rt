// The slot of a key, and whether two maps differ at a key. A key is two words, the high one 0 in layout 1.
ghost use Rattle.std.specs.Prelude.{◌≡◌};
ghost use Rattle.layout.specs.Size.{slots_in};
ghost use Rattle.layout.specs.Record.{Layout, key_with};
ghost use Rattle.table.specs.Complete.{table_of};
ghost use Rattle.cut_counts.specs.Maps.{differ_at};
ghost use Rattle.cut_counts.specs.inner.Indexed.{OwnIndex, HeldIn};

use crate::values::values_differ;
use index::Found;
use index_read_code::search::find_key;
use layout_code::header::slot_count;

// The slot that holds the value of a key, 0 for none.
fn slot_of(image: &[u8], heads: &[u32], next: &[u32], l: usize, low: u64, high: u64) -> usize
    requires { Layout l × OwnIndex l image.now heads.now next.now }
    ensures { HeldIn l image.now (key_with low high) result }
{
    let n = slot_count(image.len());
    match find_key(image, l, heads, next, n, low, high) {
        Found::At { slot, .. } => slot as usize,
        Found::Missing { .. } | Found::BadChain => 0,
    }
}

// Do the maps of two images differ at a key?
pub fn differ_at(
    first: &[u8],
    first_heads: &[u32],
    first_next: &[u32],
    second: &[u8],
    second_heads: &[u32],
    second_next: &[u32],
    l: usize,
    low: u64,
    high: u64,
) -> bool
    requires { Layout l × OwnIndex l first.now first_heads.now first_next.now × OwnIndex l second.now second_heads.now second_next.now }
    ensures result { result ≡ differ_at (table_of l first.now) (slots_in first.now) (table_of l second.now)
        (slots_in second.now) (key_with low high) }
{
    let s = slot_of(first, first_heads, first_next, l, low, high);
    let t = slot_of(second, second_heads, second_next, l, low, high);
    if s == 0 || t == 0 {
        return t != s;
    }
    values_differ(first, s, second, t, l)
}
