// One pass over the slots of an image.
ghost use Rattle.std.specs.Prelude.{◌≡◌, cond, ℕ, suc, ◌+◌, ◌≤◌, ◌<◌, ◌^◌, eqb};
ghost use Rattle.words.specs.Word.{word};
ghost use Rattle.prelude.specs.Refusal.{refuse_if, or_else};
ghost use Rattle.layout.specs.inner.Inside.{SlotInside};
ghost use Rattle.layout.specs.Record.{key_with};
ghost use Rattle.index.specs.Index.{head_of};
ghost use Rattle.recovery.specs.inner.Scan.{Scannable, valid_summary, Summed, is_remove_by, ClassesWith, slots_counted, ScanWith, Scanned};

use index_read_code::head::head_of;
use layout::Verdict;
use layout_fields_code::fields::{check_record, slot_high, slot_kind, slot_low};
use layout_line_code::slot::{mark_fault, slot_verdict};
use recovery::{Classes, Scan, Summary};
use refusals::return_code;
use words_code::greater;

// The chain of a record whose key has this low word, as a number: a put's is that of its key's head.
fn record_place(kind: u64, low: u64, b: usize) -> u32
    requires { (1 ≤ b) × (b ≤ 65536) }
    ensures { (high : ℕ) → result ≡ cond (eqb kind 2) 0 (head_of (key_with low high) b + 1) }
{
    if kind == 2 {
        0
    } else {
        head_of(low, b) as u32 + 1
    }
}

// What is kept of a valid slot.
fn valid_summary(image: &[u8], l: usize, s: usize, b: usize, version: u64, mark: bool) -> Summary
    requires { SlotInside image.now l s × (1 ≤ b) × (b ≤ 65536) × (version < 2 ^ 63) }
    ensures { result ≡ valid_summary l (word image.now) s b version mark }
{
    let low = slot_low(image, s);
    let place = record_place(slot_kind(image, l, s), low, b);
    Summary {
        rank: 2 + version,
        low,
        high: slot_high(image, l, s),
        place,
        top: version,
        mark,
        fault: return_code(check_record(image, l, s)),
    }
}

// What is kept of slot s.
fn summary(image: &[u8], l: usize, s: usize, b: usize) -> Summary
    requires { SlotInside image.now l s × (1 ≤ b) × (b ≤ 65536) }
    ensures { Summed l (word image.now) s b result }
{
    let mark = mark_fault(image, s);
    let nothing = Summary {
        rank: 0,
        low: 0,
        high: 0,
        place: 0,
        top: 0,
        mark,
        fault: 0,
    };
    match slot_verdict(image, s) {
        Verdict::Valid(version) => valid_summary(image, l, s, b, version, mark),
        Verdict::Empty => Summary { rank: 1, ..nothing },
        Verdict::Broken(top) => Summary { top, ..nothing },
    }
}

// The first number unless it is 0, then the second.
#[tactic(auto, unfolding(prelude::specs::Refusal::or_else))]
fn first_of(a: u32, b: u32) -> u32
    ensures { result ≡ or_else a b }
{
    if a != 0 { a } else { b }
}

// Slot s where it has a fault, else 0.
#[tactic(auto, unfolding(prelude::specs::Refusal::refuse_if))]
fn slot_at_fault(fault: u32, s: u32) -> u32
    ensures { result ≡ refuse_if (eqb fault 0) 0 s }
{
    if fault == 0 { 0 } else { s }
}

// The count with one more where the test holds.
fn count_if(count: u32, test: bool) -> u32
    requires { count < 65536 }
    ensures { result ≡ cond test (suc count) count }
{
    count + u32::from(test)
}

// Is a slot of this rank and this place a remove?
#[tactic(auto, unfolding(recovery::specs::inner::Scan::is_remove_by))]
fn is_remove(rank: u64, place: u32) -> bool
    ensures { result ≡ is_remove_by rank place }
{
    2 <= rank && place == 0
}

// The classes with one slot more, of this rank and this place.
fn classes_with(classes: Classes, rank: u64, place: u32) -> Classes
    requires { slots_counted classes < 65536 }
    ensures { ClassesWith classes rank place result }
{
    Classes {
        broken: count_if(classes.broken, rank == 0),
        empty: count_if(classes.empty, rank == 1),
        puts: count_if(classes.puts, 0 < place),
        removes: count_if(classes.removes, is_remove(rank, place)),
    }
}

// A scan with slot s joined.
fn joined(scan: Scan, slot: Summary, s: u32) -> Scan
    requires { slots_counted scan.classes < 65536 }
    ensures { ScanWith scan slot s result }
{
    Scan {
        mark: scan.mark || slot.mark,
        fault: first_of(scan.fault, slot.fault),
        slot: first_of(scan.slot, slot_at_fault(slot.fault, s)),
        classes: classes_with(scan.classes, slot.rank, slot.place),
        top: greater(scan.top, slot.top),
    }
}

// Slots 1 to n are scanned into the lists. Only in layout 2 has highs entries.
pub fn scan(
    image: &[u8],
    l: usize,
    n: usize,
    b: usize,
    ranks: &mut [u64],
    lows: &mut [u64],
    highs: &mut [u64],
    places: &mut [u32],
) -> Scan
    requires { Scannable image.now l ranks.old lows.old highs.old places.old n b }
    ensures result { Scanned l (word image.now) n b ranks.new lows.new highs.new places.new result }
{
    let mut all = Scan {
        mark: false,
        fault: 0,
        slot: 0,
        classes: Classes {
            broken: 0,
            empty: 0,
            puts: 0,
            removes: 0,
        },
        top: 0,
    };
    for s in 1..=n {
        let slot = summary(image, l, s, b);
        ranks[s] = slot.rank;
        lows[s] = slot.low;
        if l == 2 {
            highs[s] = slot.high;
        }
        places[s] = slot.place;
        all = joined(all, slot, s as u32);
    }
    all
}
