// The refusal of a call by the slots that it takes: 11 by the links, 28 where too few may be taken.
ghost use Rattle.std.specs.Prelude.{◌≡◌, true, ◌+◌, ◌*◌, ◌≤◌, ◌<◌, length};
ghost use Rattle.words.specs.Word.{word};
ghost use Rattle.prelude.specs.Range.{greatest};
ghost use Rattle.layout.specs.Content.{contents_of};
ghost use Rattle.allocation.specs.Allocation.{allocation_by_rule, named_version, own_allocation, allocation_by};
ghost use Rattle.allocation.specs.inner.Walk.{take_fault, end_fault, walk_fault, ends_well};
ghost use Rattle.allocation.specs.inner.Takeable.{slot_version, takeable, OpenFirst, Walkable};
ghost use Rattle.allocation.specs.inner.Choice.{Unrefused, ToldBy};

use crate::choose::choose_below;
use crate::look::is_any_left;
use crate::slot::{highest_valid, is_low, may_take, valid_version};
use allocation::Told;
use words_code::read_word;

// So many slots of a chain of n are met where a few tell.
fn few_of(n: usize) -> usize
    ensures { result ≤ n }
{
    n.min(64)
}

// 11 by the link of the slot that is taken, else 0; so many slots may still be met.
pub fn end_fault(n: usize, left: usize, link: u32) -> u32
    ensures result { result ≡ end_fault n left link }
{
    if link == 0 {
        return 0;
    }
    if n < link as usize {
        return 11;
    }
    if left == 0 {
        return 11;
    }
    0
}

// Follows the reuse chain, so many slots at most, up to the last of the slots that are wanted: 11, 28 or 0.
fn walk_fault(
    image: &[u8],
    l: usize,
    next: &[u32],
    n: usize,
    first: u32,
    most: usize,
    wanted: usize,
    top: u64,
    scan: bool,
) -> u32
    requires { Walkable image.now next.now l n × (0 < wanted) }
    ensures { result ≡ walk_fault (takeable (contents_of l image.now) n top scan) next.now n most wanted first }
{
    let mut at = first;
    let mut need = wanted;
    for left in (0..most).rev() {
        if at == 0 {
            return 28;
        }
        let slot = at as usize;
        if n < slot {
            return 11;
        }
        at = next[slot];
        if may_take(image, l, n, top, scan, slot) {
            if need == 1 {
                return end_fault(n, left, at);
            }
            need -= 1;
        }
    }
    if at == 0 {
        return 28;
    }
    11
}

// The version of the slot that the state names as the newest, if it is valid, else 0: it is not above the highest.
pub fn newest_version(image: &[u8], n: usize, newest: u32) -> u64
    requires { 128 * (n + 1) ≤ length image.now }
    ensures result { result ≤ greatest (slot_version (word image.now)) n }
{
    let s = newest as usize;
    if s == 0 || n < s {
        return 0;
    }
    valid_version(image, s)
}

// May the chain's first slot be taken, below this version by its line A, with a link that a chain has?
fn is_open(image: &[u8], l: usize, next: &[u32], n: usize, first: u32, known: u64) -> bool
    requires { Walkable image.now next.now l n }
    ensures { result ≡ true → OpenFirst l (word image.now) next.now n known first }
{
    let s = first as usize;
    s != 0 && s <= n && next[s] as usize <= n && is_low(image, l, s, known)
}

// What a step along the chain costs: 1 to a slot nearby, which the processor has at hand, 16 to any other.
fn step_cost(from: usize, to: usize) -> usize
    ensures { result ≤ 16 }
{
    if from.abs_diff(to) <= 8 { 1 } else { 16 }
}

// Are there enough slots ahead that by their line A are below this version and no remove records? The look ahead costs
// about half a pass over a large image; where it ends too soon the answer is no. Where no version is known, a few slots
// that are not valid may tell.
fn is_clear_ahead(
    image: &[u8],
    l: usize,
    next: &[u32],
    n: usize,
    first: u32,
    wanted: usize,
    known: u64,
) -> bool
    requires { Walkable image.now next.now l n × (0 < wanted) × (known ≤ greatest (slot_version (word image.now)) n) }
    ensures { result ≡ true → take_fault (allocation_by_rule l image.now next.now n first wanted) ≡ 0 }
{
    if known == 0 {
        return walk_fault(image, l, next, n, first, few_of(n), wanted, known, false) == 0;
    }
    let mut at = first;
    let mut need = wanted;
    let mut budget = n / 2 + 1024;
    let mut from = first as usize;
    for left in (0..n).rev() {
        let slot = at as usize;
        if slot == 0 || n < slot {
            return false;
        }
        let cost = step_cost(from, slot);
        if budget < cost {
            return false;
        }
        budget -= cost;
        from = slot;
        at = next[slot];
        if is_low(image, l, slot, known) {
            if need == 1 {
                return end_fault(n, left, at) == 0;
            }
            need -= 1;
        }
    }
    false
}

// Does one pass over the image tell that the slots that are chosen by this version may be taken? Where strict, that it
// is the highest too.
fn is_clear_by(
    image: &[u8],
    l: usize,
    next: &[u32],
    n: usize,
    first: u32,
    wanted: usize,
    known: u64,
    strict: bool,
) -> bool
    requires { Walkable image.now next.now l n × (0 < wanted) × (wanted ≤ 8) × (known ≤ greatest (slot_version (word image.now)) n) }
    ensures { result ≡ true → Unrefused l image.now next.now n first wanted known strict }
{
    if known == 0 {
        return false;
    }
    let choice = choose_below(image, l, next, n, first, wanted, known);
    choice.fault == 0 && !is_any_left(image, l, n, choice.slots, wanted, known, strict)
}

// 11 or 28 by the slots of the chain that may be taken, else 0, by the highest valid version. Where too few may be
// taken after those before them, no other pass is needed.
fn fault_by_all(
    image: &[u8],
    l: usize,
    next: &[u32],
    n: usize,
    first: u32,
    wanted: usize,
    top: u64,
) -> u32
    requires { Walkable image.now next.now l n × (0 < wanted) × (wanted ≤ 8) × (top ≡ greatest (slot_version (word image.now)) n) }
    ensures { result ≡ take_fault (allocation_by_rule l image.now next.now n first wanted) }
{
    let choice = choose_below(image, l, next, n, first, wanted, top);
    if choice.fault == 28 {
        return 28;
    }
    walk_fault(image, l, next, n, first, n, wanted, top, true)
}

// 11 or 28 by the slots of the chain that may be taken, else 0. By the version that is known: mostly the slots ahead
// tell that there are enough, else one pass over the image does where the index is its own; for any other index the
// highest version is sought. Where strict, the pass tells of the highest version too.
pub fn slots_told(
    image: &[u8],
    l: usize,
    next: &[u32],
    n: usize,
    first: u32,
    wanted: usize,
    known: u64,
    strict: bool,
) -> Told
    requires { Walkable image.now next.now l n × (0 < wanted) × (wanted ≤ 8) × (known ≤ greatest (slot_version (word image.now)) n) }
    ensures result { ToldBy l image.now next.now n first wanted result }
{
    if is_clear_ahead(image, l, next, n, first, wanted, known) {
        return Told {
            fault: 0,
            top: known,
            exact: false,
        };
    }
    if is_clear_by(image, l, next, n, first, wanted, known, strict) {
        return Told {
            fault: 0,
            top: known,
            exact: strict,
        };
    }
    let top = highest_valid(image, n);
    let fault = fault_by_all(image, l, next, n, first, wanted, top);
    Told {
        fault,
        top,
        exact: true,
    }
}

// The same of a call that wants one slot, by the slot that the state names as the newest.
fn take_fault(image: &[u8], l: usize, next: &[u32], n: usize, first: u32, newest: u32) -> u32
    requires { Walkable image.now next.now l n }
    ensures { result ≡ take_fault (allocation_by_rule l image.now next.now n first 1) }
{
    let known = newest_version(image, n, newest);
    if is_open(image, l, next, n, first, known) {
        return 0;
    }
    let told = slots_told(image, l, next, n, first, 1, known, false);
    told.fault
}

// The version on line A of the slot that the state names as the newest, 0 where the image has no such slot.
pub fn named_version(image: &[u8], n: usize, newest: u32) -> u64
    requires { 128 * (n + 1) ≤ length image.now }
    ensures result { result ≡ named_version image.now n newest }
{
    let s = newest as usize;
    if n < s {
        return 0;
    }
    read_word(image, 16 * s + 7) / 2
}

// Does line A of the first slot of the chain tell that it may be taken by a call for the owner of its index?
pub fn is_own_open(image: &[u8], l: usize, next: &[u32], n: usize, first: u32, newest: u32) -> bool
    requires { Walkable image.now next.now l n × (0 < first) × (first ≤ n) }
    ensures result { result ≡ true → take_fault (own_allocation l image.now next.now n first newest 1) ≡ 0 }
{
    let t = first as usize;
    next[t] as usize <= n && read_word(image, 16 * t + 7) / 2 < named_version(image, n, newest)
}

// 11 or 28 by the slot of a call for the owner of its index that wants one, else 0.
fn own_fault(image: &[u8], l: usize, next: &[u32], n: usize, first: u32, newest: u32) -> u32
    requires { Walkable image.now next.now l n }
    ensures { result ≡ take_fault (own_allocation l image.now next.now n first newest 1) }
{
    let top = named_version(image, n, newest);
    let choice = choose_below(image, l, next, n, first, 1, top);
    choice.fault
}

// 11 or 28 by the slot of a call of either family that wants one, else 0.
pub fn take_fault_by(
    own: bool,
    image: &[u8],
    l: usize,
    next: &[u32],
    n: usize,
    first: u32,
    newest: u32,
) -> u32
    requires { Walkable image.now next.now l n }
    ensures result { result ≡ take_fault (allocation_by own l image.now next.now n first newest 1) }
{
    if own {
        own_fault(image, l, next, n, first, newest)
    } else {
        take_fault(image, l, next, n, first, newest)
    }
}

// Does the chain end after a few slots, with no link above n before?
fn is_ending(next: &[u32], n: usize, first: u32) -> bool
    requires { length next.now ≡ n + 1 }
    ensures { result ≡ true → ends_well next.now n n first ≡ true }
{
    let mut at = first;
    for _left in (0..few_of(n)).rev() {
        if at == 0 {
            return true;
        }
        let slot = at as usize;
        if n < slot {
            return false;
        }
        at = next[slot];
    }
    at == 0
}

// The refusal `room` of a call for which the live count leaves no room, where the links of a chain that soon ends tell
// that it is no other; else 0, and the slots have to tell.
pub fn full_fault(next: &[u32], n: usize, first: u32, room: u32) -> u32
    requires { length next.now ≡ n + 1 }
    ensures result { (result ≡ 0 → ⊥) → (result ≡ room) × (ends_well next.now n n first ≡ true) }
{
    if room == 0 {
        return 0;
    }
    if is_ending(next, n, first) {
        return room;
    }
    0
}
