// The verdict on a slot.
ghost use Rattle.std.specs.Prelude.{◌≡◌, ◌+◌, ◌*◌, ◌≤◌, length};
ghost use Rattle.words.specs.Word.{word};
ghost use Rattle.layout.specs.Slot.{paired, verdict_of, slot_verdict};
ghost use Rattle.layout.specs.Fault.{mark_fault};

use crate::line::{is_whole, line_top, version_of};
use layout::Verdict;
use words_code::{greater, read_word};

// Are both lines whole, with one version?
#[tactic(auto, unfolding(layout::specs::Slot::paired))]
fn is_pair(mark_a: u64, stamp_a: u64, mark_b: u64, stamp_b: u64) -> bool
    ensures { result ≡ paired mark_a stamp_a mark_b stamp_b }
{
    is_whole(mark_a, stamp_a)
        && is_whole(mark_b, stamp_b)
        && version_of(stamp_a) == version_of(stamp_b)
}

// The verdict that marks and stamps give.
#[tactic(auto, unfolding(layout::specs::Slot::verdict_of))]
pub fn verdict_of(mark_a: u64, stamp_a: u64, mark_b: u64, stamp_b: u64) -> Verdict
    ensures result { result ≡ verdict_of mark_a stamp_a mark_b stamp_b }
{
    if !is_pair(mark_a, stamp_a, mark_b, stamp_b) {
        return Verdict::Broken(greater(line_top(mark_a, stamp_a), line_top(mark_b, stamp_b)));
    }
    match version_of(stamp_a) {
        0 => Verdict::Empty,
        version => Verdict::Valid(version),
    }
}

// The verdict on slot s.
pub fn slot_verdict(image: &[u8], s: usize) -> Verdict
    requires { 128 * (s + 1) ≤ length image.now }
    ensures result { result ≡ slot_verdict (word image.now) s }
{
    let mark_a = read_word(image, 16 * s);
    let stamp_a = read_word(image, 16 * s + 7);
    let mark_b = read_word(image, 16 * s + 8);
    let stamp_b = read_word(image, 16 * s + 15);
    verdict_of(mark_a, stamp_a, mark_b, stamp_b)
}

// Is a mark of slot s neither 0 nor 1?
pub fn mark_fault(image: &[u8], s: usize) -> bool
    requires { 128 * (s + 1) ≤ length image.now }
    ensures result { result ≡ mark_fault (word image.now) s }
{
    if 1 < read_word(image, 16 * s) {
        return true;
    }
    1 < read_word(image, 16 * s + 8)
}
