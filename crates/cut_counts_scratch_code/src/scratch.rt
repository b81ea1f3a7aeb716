// The three indexes that a count of cuts takes, as long as the number of slots asks for.
ghost use Rattle.std.specs.Prelude.{◌≡◌, ◌<◌, ◌≤◌};
ghost use Rattle.layout.specs.Size.{slots_in};
ghost use Rattle.layout.specs.Record.{Layout};
ghost use Rattle.cut_counts.specs.CutCount.{cut_count_end, cut_count_result};

use crate::indexes::count_with_indexes;
use cut_counts::CutCounts;
use stores::Stores;

// For fewer than N slots.
pub fn count_sized<const N: usize>(
    image: &[u8],
    l: usize,
    stores: Stores,
    copy: &mut [u8],
    later: &mut [u8],
    n: usize,
) -> CutCounts
    requires { Layout l × (n ≡ slots_in image.now) × (n < N) × (N ≤ 65536) }
    ensures result { cut_count_end result copy.new later.new
        ≡ cut_count_result l image.now stores.at stores.value copy.old later.old }
{
    let m = n + 1;
    let mut heads = [0u32; N];
    let mut next = [0u32; N];
    let mut later_heads = [0u32; N];
    let mut later_next = [0u32; N];
    let mut copy_heads = [0u32; N];
    let mut copy_next = [0u32; N];
    count_with_indexes(
        image,
        l,
        stores,
        copy,
        later,
        &mut heads,
        &mut next[..m],
        &mut later_heads,
        &mut later_next[..m],
        &mut copy_heads,
        &mut copy_next[..m],
    )
}
