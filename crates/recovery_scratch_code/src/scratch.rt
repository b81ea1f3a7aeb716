// Recovery's own scratch lists, as long as the number of slots asks for.
ghost use Rattle.std.specs.Prelude.{◌<◌, ◌≤◌};
ghost use Rattle.recovery.specs.inner.Judge.{Ready};
ghost use Rattle.recovery.specs.inner.Report.{RecoveredWith};

use crate::fronts::recover_on_fronts;
use recovery::RecoveryReport;

// With scratch for fewer than N slots.
pub fn recover_sized<const N: usize>(
    image: &[u8],
    l: usize,
    heads: &mut [u32],
    next: &mut [u32],
    n: usize,
) -> RecoveryReport
    requires { Ready image.now l heads.old next.old n × (n < N) × (N ≤ 65536) }
    ensures result { RecoveredWith l image.now heads.old next.old heads.new next.new result }
{
    let mut ranks = [0u64; N];
    let mut lows = [0u64; N];
    let mut highs = [0u64; N];
    let mut places = [0u32; N];
    let mut order = [0u32; N];
    let mut by_key = [0u32; N];
    let mut scratch = [0u32; N];
    recover_on_fronts(
        image,
        l,
        heads,
        next,
        n,
        &mut ranks,
        &mut lows,
        &mut highs,
        &mut places,
        &mut order,
        &mut by_key,
        &mut scratch,
    )
}
