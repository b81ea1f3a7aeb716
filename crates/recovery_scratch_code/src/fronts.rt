// Recovery on the fronts of its scratch lists.
ghost use Rattle.recovery.specs.inner.Judge.{Ready, Roomy};
ghost use Rattle.recovery.specs.inner.Report.{RecoveredWith};

use recovery::RecoveryReport;
use recovery_rebuild_code::rebuilding::recover_with;

// With scratch lists that are long enough: their fronts are used, and in layout 1 none of highs.
pub fn recover_on_fronts(
    image: &[u8],
    l: usize,
    heads: &mut [u32],
    next: &mut [u32],
    n: usize,
    ranks: &mut [u64],
    lows: &mut [u64],
    highs: &mut [u64],
    places: &mut [u32],
    order: &mut [u32],
    by_key: &mut [u32],
    scratch: &mut [u32],
) -> RecoveryReport
    requires { Ready image.now l heads.old next.old n
        × Roomy ranks.old lows.old highs.old places.old order.old by_key.old scratch.old n }
    ensures result { RecoveredWith l image.now heads.old next.old heads.new next.new result }
{
    let m = n + 1;
    let h = (l - 1) * m;
    recover_with(
        image,
        l,
        heads,
        next,
        n,
        &mut ranks[..m],
        &mut lows[..m],
        &mut highs[..h],
        &mut places[..m],
        &mut order[..n],
        &mut by_key[..n],
        &mut scratch[..n],
    )
}
