// The report on images that come one after another: the first bytes of a buffer, and the end of the input.

#![tactic(auto)]

mod image;
mod lent;
mod storing;

ghost use Rattle.std.specs.Prelude.{◌≡◌, ◌≤◌, length, take};
ghost use Rattle.report_text.specs.Report.{no_totals};
ghost use Rattle.report_text.specs.Blocks.{TotalsBounded, BlockReported, FrontAnswered, last_text};
ghost use Rattle.report_text.specs.inner.Images.{BlockLent};

use crate::image::report_image;
use crate::lent::is_lent;
use crate::storing::{store_totals, store_unread};
use report_text::{Block, FrontReport, ReportProgress, SlotTotals};
use report_text_input_code::carry::{ends_reading, move_down};
use report_text_input_code::size::readable_size;

// Before the first image.
pub fn start_report() -> ReportProgress
    ensures result { (result ≡ record { left = 1000000; totals = no_totals }) × TotalsBounded result }
{
    ReportProgress {
        left: 1000000,
        totals: SlotTotals {
            live: 0,
            hidden: 0,
            removes: 0,
            void: 0,
            broken: 0,
            empty: 0,
        },
    }
}

// The whole images at the front of the input are reported.
fn report_block(input: &[u8], p: ReportProgress, out: &mut [u8]) -> Block
    requires { BlockLent input.now p out.old }
    ensures reported { BlockReported input.now p out.new result }
{
    let mut next = [0u32; 512];
    let mut progress = p;
    let mut at = 0;
    let mut end = 0;
    let mut size = readable_size(input, p.left);
    // A while: how far each step goes is read at the image that it comes to, so no range gives it.
    while 0 < size {
        let after = at + size;
        let reported = report_image(&input[at..after], &mut next, progress, out, end);
        progress = reported.progress;
        end = reported.end;
        at = after;
        size = readable_size(&input[at..], progress.left);
    }
    Block {
        progress,
        used: at,
        end,
    }
}

// The whole images among the first `have` bytes of the buffer are reported, and the bytes after them are carried over
// to its front; none where the sizes or the progress are none that a report can go on with.
pub fn report_front(
    input: &mut [u8],
    have: usize,
    p: ReportProgress,
    out: &mut [u8],
) -> Option<FrontReport>
    ensures answered { FrontAnswered input.old have p out.old input.new out.new result }
{
    if !is_lent(have, input.len(), out.len(), p) {
        return None;
    }
    let block = report_block(&input[..have], p, out);
    let used = block.used;
    let progress = block.progress;
    let ended = ends_reading(&input[used..have], progress.left);
    move_down(input, used, have);
    Some(FrontReport {
        block,
        carried: have - used,
        ended,
    })
}

// The end of the input is reported: its whole images, `no 1` where something is left, and the totals. Returned is how
// many bytes of output there are: none where the sizes or the progress are none that a report can go on with.
pub fn report_last(input: &[u8], p: ReportProgress, out: &mut [u8]) -> usize
    ensures printed { take result out.new ≡ last_text input.now (length out.old) p }
    ensures inside { result ≤ length out.new }
{
    if !is_lent(input.len(), input.len(), out.len(), p) {
        return 0;
    }
    let block = report_block(input, p, out);
    let progress = block.progress;
    let totals = progress.totals;
    let end = store_unread(progress.left, input.len() - block.used, out, block.end);
    store_totals(totals, out, end)
}
