// Images with the index that recovery builds, and whether two of them have one map.
ghost use Rattle.std.specs.Prelude.{◌≡◌};
ghost use Rattle.layout.specs.Size.{slots_in};
ghost use Rattle.layout.specs.Record.{Layout};
ghost use Rattle.table.specs.Complete.{table_of};
ghost use Rattle.cut_counts.specs.Maps.{is_same_map};
ghost use Rattle.cut_counts.specs.CutCount.{have_one_map};
ghost use Rattle.cut_counts.specs.inner.Indexed.{Mapped, IndexedBy};
ghost use Rattle.cut_counts.specs.inner.Pairs.{FitsIndex};

use crate::slots::differ_at;
use cut_counts::Indexed;
use layout_code::header::slot_count;
use layout_fields_code::fields::{slot_high, slot_low};
use recovery::Recovered;
use recovery_call_code::recover_in;

// The index of an image, where recovery accepts it.
pub fn index_image(image: &[u8], l: usize, heads: &mut [u32], next: &mut [u32]) -> Indexed
    requires { Layout l × FitsIndex image.now heads.old next.old }
    ensures result { IndexedBy l image.now heads.new next.new result }
{
    match recover_in(image, l, heads, next).answer.recovered {
        Recovered::Rebuilt(state) => Indexed::Map(state.live),
        Recovered::Refused { number, .. } => Indexed::Nothing(number),
    }
}

// Are the maps of two accepted images equal? They hold as many keys, and differ at no key of a slot of the first.
fn same_map(
    first: &[u8],
    first_heads: &[u32],
    first_next: &[u32],
    first_live: u32,
    second: &[u8],
    second_heads: &[u32],
    second_next: &[u32],
    second_live: u32,
    l: usize,
) -> bool
    requires { Layout l × Mapped l first.now first_heads.now first_next.now first_live
        × Mapped l second.now second_heads.now second_next.now second_live }
    ensures { result ≡ is_same_map (table_of l first.now) (slots_in first.now) (table_of l second.now)
        (slots_in second.now) }
{
    if first_live != second_live {
        return false;
    }
    for s in 1..=slot_count(first.len()) {
        let low = slot_low(first, s);
        let high = slot_high(first, l, s);
        if differ_at(
            first,
            first_heads,
            first_next,
            second,
            second_heads,
            second_next,
            l,
            low,
            high,
        ) {
            return false;
        }
    }
    true
}

// Does recovery accept both images, and have they one map?
pub fn have_one_map(
    first: &[u8],
    first_heads: &[u32],
    first_next: &[u32],
    first_index: Indexed,
    second: &[u8],
    second_heads: &[u32],
    second_next: &[u32],
    second_index: Indexed,
    l: usize,
) -> bool
    requires indexed { Layout l × IndexedBy l first.now first_heads.now first_next.now first_index
        × IndexedBy l second.now second_heads.now second_next.now second_index }
    ensures result { result ≡ have_one_map l first.now second.now }
{
    match (first_index, second_index) {
        (Indexed::Map(first_live), Indexed::Map(second_live)) => same_map(
            first,
            first_heads,
            first_next,
            first_live,
            second,
            second_heads,
            second_next,
            second_live,
            l,
        ),
        (Indexed::Map(_), Indexed::Nothing(_)) => false,
        (Indexed::Nothing(_), _) => false,
    }
}
