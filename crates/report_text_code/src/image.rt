// One image: its size, its line, and the totals with its counts.
ghost use Rattle.std.specs.Prelude.{◌≡◌, ℕ, ◌+◌, ◌^◌};
ghost use Rattle.prelude.specs.Answer.{gives};
ghost use Rattle.interface.specs.Set.{count_values};
ghost use Rattle.report_text.specs.Report.{totals_with};
ghost use Rattle.report_text.specs.Blocks.{Below};
ghost use Rattle.report_text.specs.inner.Images.{Reportable, ImageReported};

use crate::storing::{store_counts, store_refusal};
use orderset::{CountAnswer, SlotCounts, count_slots};
use report_text::{ImageReport, ReportProgress, SlotTotals};

// The totals with the counts of one more image.
fn add_counts(t: SlotTotals, c: SlotCounts) -> SlotTotals
    requires { Below t (2 ^ 63) }
    ensures { (result ≡ totals_with (gives (count_values c)) t) × ((bound : ℕ) → Below t bound → Below result (bound + 2 ^ 32)) }
{
    SlotTotals {
        live: t.live + c.live as u64,
        hidden: t.hidden + c.hidden as u64,
        removes: t.removes + c.removes as u64,
        void: t.void + c.void as u64,
        broken: t.broken + c.broken as u64,
        empty: t.empty + c.empty as u64,
    }
}

// The image is counted, and its line stored from position at on.
pub fn report_image(
    image: &[u8],
    next: &mut [u32],
    p: ReportProgress,
    out: &mut [u8],
    at: usize,
) -> ImageReport
    requires { Reportable image.now next.old p out.old at }
    ensures result { ImageReported image.now p out.old at out.new result }
{
    let mut heads = [0u32; 1];
    let entries = image.len() / 128;
    let answer = count_slots(image, &mut heads, &mut next[..entries]);
    let (totals, end) = match answer {
        CountAnswer::Counted(counts) => (
            add_counts(p.totals, counts),
            store_counts(counts, out, at),
        ),
        CountAnswer::Refused { number, .. } => (p.totals, store_refusal(number, out, at)),
    };
    ImageReport {
        progress: ReportProgress {
            left: p.left - 1,
            totals,
        },
        end,
    }
}
