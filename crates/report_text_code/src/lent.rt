// What the functions of the report are lent, and the progress from which they go on.
ghost use Rattle.std.specs.Prelude.{◌≡◌};
ghost use Rattle.report_text.specs.Blocks.{is_below, is_bounded, is_lent};

use report_text::{ReportProgress, SlotTotals};

// Is no total above the bound?
fn is_below(t: SlotTotals, bound: u64) -> bool
    ensures result { result ≡ is_below t bound }
{
    if bound < t.live
        || bound < t.hidden
        || bound < t.removes
        || bound < t.void
        || bound < t.broken
    {
        return false;
    }
    t.empty <= bound
}

// Can the totals be those of the images read so far?
fn is_bounded(p: ReportProgress) -> bool
    ensures result { result ≡ is_bounded p }
{
    p.left <= 1000000 && is_below(p.totals, (1 << 32) * (1000000 - p.left) as u64)
}

// Can the first bytes of a buffer of this size be reported into so much room?
pub fn is_lent(have: usize, size: usize, room: usize, p: ReportProgress) -> bool
    ensures result { result ≡ is_lent have size room p }
{
    if size < have || room < size / 3 + 257 {
        return false;
    }
    is_bounded(p)
}
