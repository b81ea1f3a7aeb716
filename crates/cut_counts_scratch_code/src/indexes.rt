// The cuts are counted with three indexes: of the image, of the image with all stores played and of each cut.
ghost use Rattle.std.specs.Prelude.{◌≡◌, length};
ghost use Rattle.layout.specs.Record.{Layout};
ghost use Rattle.refusals.specs.Number.{fault_in};
ghost use Rattle.cut_counts.specs.CutCount.{arguments_fault, cut_image, cut_count_end, cut_count_result};
ghost use Rattle.cut_counts.specs.inner.Indexed.{IndexedBy};
ghost use Rattle.cut_counts.specs.inner.Pairs.{FitsIndex, tally_of};

use cut_counts::{CutCounts, Indexed, Tally};
use cut_counts_map_code::maps::index_image;
use cut_counts_pair_code::pairs::{count_pairs, cut_copy};
use refusals::Refusal;
use stores::Stores;
use stores_code::fault::check_play;

// 1, 14 or 15 by the stores, or 1 by the length of a lent slice.
fn check_arguments(len: usize, stores: Stores, copy: usize, later: usize) -> Result<(), Refusal>
    ensures { fault_in result ≡ arguments_fault len stores.at copy later }
{
    check_play(len, &stores.at, 8, 8)?;
    if copy != len || later != len {
        return Err(Refusal::BadImageLength);
    }
    Ok(())
}

// The tally for an image with its index.
fn tally(
    image: &[u8],
    heads: &[u32],
    next: &[u32],
    index: Indexed,
    l: usize,
    stores: Stores,
    copy: &mut [u8],
    later: &mut [u8],
    later_heads: &mut [u32],
    later_next: &mut [u32],
    copy_heads: &mut [u32],
    copy_next: &mut [u32],
) -> Tally
    requires { Layout l × IndexedBy l image.now heads.now next.now index × (length copy.old ≡ length image.now)
        × (length later.old ≡ length image.now) × FitsIndex image.now later_heads.old later_next.old
        × FitsIndex image.now copy_heads.old copy_next.old }
    ensures { (result ≡ tally_of l image.now stores.at stores.value later.new 81)
        × (copy.new ≡ cut_image image.now stores.at stores.value 8 8)
        × (later.new ≡ cut_image image.now stores.at stores.value 8 8) }
{
    let later_index = cut_copy(image, l, stores, 8, 8, later, later_heads, later_next);
    count_pairs(
        image,
        heads,
        next,
        index,
        later,
        later_heads,
        later_next,
        later_index,
        l,
        stores,
        copy,
        copy_heads,
        copy_next,
    )
}

// With lists for three indexes.
pub fn count_with_indexes(
    image: &[u8],
    l: usize,
    stores: Stores,
    copy: &mut [u8],
    later: &mut [u8],
    heads: &mut [u32],
    next: &mut [u32],
    later_heads: &mut [u32],
    later_next: &mut [u32],
    copy_heads: &mut [u32],
    copy_next: &mut [u32],
) -> CutCounts
    requires { Layout l × FitsIndex image.now heads.old next.old × FitsIndex image.now later_heads.old later_next.old
        × FitsIndex image.now copy_heads.old copy_next.old }
    ensures result { cut_count_end result copy.new later.new
        ≡ cut_count_result l image.now stores.at stores.value copy.old later.old }
{
    let index = index_image(image, l, heads, next);
    match index {
        Indexed::Nothing(number) => CutCounts::Refused(number),
        Indexed::Map(_) => match check_arguments(image.len(), stores, copy.len(), later.len()) {
            Err(refusal) => CutCounts::Refused(refusal.code()),
            Ok(()) => {
                let Tally { earlier, later } = tally(
                    image,
                    heads,
                    next,
                    index,
                    l,
                    stores,
                    copy,
                    later,
                    later_heads,
                    later_next,
                    copy_heads,
                    copy_next,
                );
                CutCounts::Counted { earlier, later }
            }
        },
    }
}
