// The 81 pairs of counts.
ghost use Rattle.std.specs.Prelude.{◌≡◌, ◌<◌, length};
ghost use Rattle.layout.specs.Record.{Layout};
ghost use Rattle.cut_counts.specs.CutCount.{cut_image};
ghost use Rattle.cut_counts.specs.inner.Indexed.{IndexedBy};
ghost use Rattle.cut_counts.specs.inner.Pairs.{FitsIndex, tallied, tally_of};

use cut_counts::{Indexed, Tally};
use cut_counts_map_code::maps::{have_one_map, index_image};
use stores::Stores;
use stores_code::play::play;

// The bytes of one slice are copied to another of the same length. An index for each byte, so that the must-fail edit
// narrows the range and changes nothing else.
fn copy_bytes(from: &[u8], to: &mut [u8])
    requires { length to.old ≡ length from.now }
    ensures { to.new ≡ from.now }
{
    for k in 0..to.len() {
        to[k] = from[k];
    }
}

// The image after the first a stores of the first half and the first b of the second, with its index.
pub fn cut_copy(
    image: &[u8],
    l: usize,
    stores: Stores,
    a: usize,
    b: usize,
    copy: &mut [u8],
    heads: &mut [u32],
    next: &mut [u32],
) -> Indexed
    requires { Layout l × (length copy.old ≡ length image.now) × FitsIndex image.now heads.old next.old }
    ensures result { (copy.new ≡ cut_image image.now stores.at stores.value a b)
        × IndexedBy l copy.new heads.new next.new result }
{
    copy_bytes(image, copy);
    let _ = play(copy, stores, a, b);
    index_image(copy, l, heads, next)
}

// One more pair, which left the earlier map, the later one, both or neither.
#[tactic(auto, unfolding(cut_counts::specs::inner::Pairs::tallied))]
fn with_pair(t: Tally, earlier: bool, later: bool) -> Tally
    requires { (t.earlier < 81) × (t.later < 81) }
    ensures { result ≡ tallied t earlier later }
{
    Tally {
        earlier: t.earlier + u32::from(earlier),
        later: t.later + u32::from(later),
    }
}

// The tally of all pairs: `later` is the image with the later map.
pub fn count_pairs(
    image: &[u8],
    heads: &[u32],
    next: &[u32],
    index: Indexed,
    later: &[u8],
    later_heads: &[u32],
    later_next: &[u32],
    later_index: Indexed,
    l: usize,
    stores: Stores,
    copy: &mut [u8],
    copy_heads: &mut [u32],
    copy_next: &mut [u32],
) -> Tally
    requires indexed { Layout l × IndexedBy l image.now heads.now next.now index
        × IndexedBy l later.now later_heads.now later_next.now later_index × (length copy.old ≡ length image.now)
        × FitsIndex image.now copy_heads.old copy_next.old }
    ensures result { (result ≡ tally_of l image.now stores.at stores.value later.now 81)
        × (copy.new ≡ cut_image image.now stores.at stores.value 8 8) }
{
    let mut t = Tally {
        earlier: 0,
        later: 0,
    };
    for i in 0..81 {
        let cut = cut_copy(image, l, stores, i / 9, i % 9, copy, copy_heads, copy_next);
        let x = have_one_map(
            image, heads, next, index, copy, copy_heads, copy_next, cut, l,
        );
        let y = have_one_map(
            later,
            later_heads,
            later_next,
            later_index,
            copy,
            copy_heads,
            copy_next,
            cut,
            l,
        );
        t = with_pair(t, x, y);
    }
    t
}
