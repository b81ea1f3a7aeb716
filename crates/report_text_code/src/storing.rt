// The lines of the report.
ghost use Rattle.std.specs.Prelude.{◌+◌, ◌≤◌, length};
ghost use Rattle.text.specs.Output.{no, text, line_text};
ghost use Rattle.text.specs.inner.Output.{Wrote};
ghost use Rattle.interface.specs.Set.{count_values};
ghost use Rattle.report_text.specs.Report.{totals_text, unread_text};

use orderset::SlotCounts;
use report_text::SlotTotals;
use text_code::output::{store_numbers, store_one};

// The six counts of an image.
pub fn store_counts(c: SlotCounts, out: &mut [u8], at: usize) -> usize
    requires { at + 126 ≤ length out.old }
    ensures result { Wrote out.old out.new at result (line_text (count_values c)) }
{
    store_numbers(
        out,
        at,
        c.live as u64,
        &[
            c.hidden as u64,
            c.removes as u64,
            c.void as u64,
            c.broken as u64,
            c.empty as u64,
        ],
    )
}

// `no` and the number of a refusal.
pub fn store_refusal(number: u32, out: &mut [u8], at: usize) -> usize
    requires { at + 24 ≤ length out.old }
    ensures result { Wrote out.old out.new at result (text (no number)) }
{
    store_one(out, at, b"no", number as u64)
}

// The totals.
pub fn store_totals(t: SlotTotals, out: &mut [u8], at: usize) -> usize
    requires { at + 126 ≤ length out.old }
    ensures result { Wrote out.old out.new at result (totals_text t) }
{
    store_numbers(
        out,
        at,
        t.live,
        &[t.hidden, t.removes, t.void, t.broken, t.empty],
    )
}

// `no 1` where images may still be read and bytes are left.
pub fn store_unread(left: u32, bytes: usize, out: &mut [u8], at: usize) -> usize
    requires { at + 24 ≤ length out.old }
    ensures result { Wrote out.old out.new at result (unread_text left bytes) }
{
    if left == 0 || bytes == 0 {
        return at;
    }
    store_refusal(1, out, at)
}
