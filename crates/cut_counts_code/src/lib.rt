// Power cuts tried on paper: all 81 pairs of counts of sixteen stores are played, recovered and compared.

#![tactic(auto)]

ghost use Rattle.std.specs.Prelude.{◌≡◌};
ghost use Rattle.layout.specs.Record.{Layout};
ghost use Rattle.cut_counts.specs.CutCount.{cut_count_end, cut_count_result};

use cut_counts::CutCounts;
use cut_counts_scratch_code::scratch::count_sized;
use layout_code::header::slot_count;
use stores::Stores;

// Count the cuts, in layout l.
fn count_cuts_in(
    image: &[u8],
    l: usize,
    stores: Stores,
    copy: &mut [u8],
    later: &mut [u8],
) -> CutCounts
    requires { Layout l }
    ensures { cut_count_end result copy.new later.new
        ≡ cut_count_result l image.now stores.at stores.value copy.old later.old }
{
    let n = slot_count(image.len());
    if n < 512 {
        count_sized::<512>(image, l, stores, copy, later, n)
    } else {
        count_sized::<65536>(image, l, stores, copy, later, n)
    }
}

// How many of the 81 cuts leave the map of the image and how many that of the image with all stores played; or a
// refusal, which changes nothing. Both lent slices have the length of the image, and then hold it with all stores
// played.
pub fn count_cuts(image: &[u8], stores: Stores, copy: &mut [u8], later: &mut [u8]) -> CutCounts
    ensures result { cut_count_end result copy.new later.new
        ≡ cut_count_result 1 image.now stores.at stores.value copy.old later.old }
{
    count_cuts_in(image, 1, stores, copy, later)
}

// The same in layout 2.
pub fn count_cuts2(image: &[u8], stores: Stores, copy: &mut [u8], later: &mut [u8]) -> CutCounts
    ensures result { cut_count_end result copy.new later.new
        ≡ cut_count_result 2 image.now stores.at stores.value copy.old later.old }
{
    count_cuts_in(image, 2, stores, copy, later)
}
