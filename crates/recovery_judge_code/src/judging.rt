// The refusals of the slots, and the order and the chain of each slot. Nothing lent but scratch lists is written.
ghost use Rattle.words.specs.Word.{word};
ghost use Rattle.recovery.specs.inner.Judge.{Judgeable, Judgement};

use crate::comparing::compare;
use crate::settling::{judged_rank, settle};
use recovery::Judged;
use recovery_fault_code::fault::{found_fault, found_slot};
use recovery_order_code::ordering::{count_placed, decide};
use recovery_scan_code::scanning::scan;

// Judges the slots of the image with the lent scratch lists.
pub fn judge_slots(
    image: &[u8],
    l: usize,
    n: usize,
    b: usize,
    ranks: &mut [u64],
    lows: &mut [u64],
    highs: &mut [u64],
    places: &mut [u32],
    order: &mut [u32],
    by_key: &mut [u32],
    scratch: &mut [u32],
) -> Judged
    requires { Judgeable image.now l ranks.old lows.old highs.old places.old order.old by_key.old scratch.old n b }
    ensures result { Judgement l (word image.now) n b order.new places.new result }
{
    let all = scan(image, l, n, b, ranks, lows, highs, places);
    let shared = compare(image, l, n, ranks, lows, highs, order, by_key, scratch);
    let limit = judged_rank(image, l, ranks, order, n);
    let invalidations = settle(
        image, n, limit, ranks, lows, highs, places, order, by_key, scratch,
    );
    decide(lows, highs, by_key, places, n);
    let live = count_placed(places, n);
    let classes = all.classes;
    let broken = classes.broken + invalidations.count;
    let fault = found_fault(all.mark, all.fault, shared, broken, live, n as u32);
    Judged {
        fault,
        slot: found_slot(all.mark, all.slot),
        live,
        top: all.top,
        classes,
        invalidations,
    }
}
