// The slots that a basket takes. `l` is the layout.
ghost use Rattle.std.specs.Prelude.{◌≡◌, ◌+◌, ◌*◌, ◌≤◌, ◌<◌, length};
ghost use Rattle.words.specs.Word.{word};
ghost use Rattle.prelude.specs.Filter.{any_in};
ghost use Rattle.layout.specs.Record.{Layout, key_with};
ghost use Rattle.layout.specs.Content.{contents_of};
ghost use Rattle.layout.specs.inner.Inside.{SlotInside};
ghost use Rattle.table.specs.Takeable.{older, takeable_if};
ghost use Rattle.index.specs.Allocation.{allocate_from};
ghost use Rattle.allocation.specs.Allocation.{allocation_by_rule, allocation_chosen, may_take_below, allocation_by, allocation_chosen_by};
ghost use Rattle.allocation.specs.inner.Walk.{take_fault};
ghost use Rattle.allocation.specs.inner.Takeable.{older_than, Walkable};
ghost use Rattle.allocation.specs.inner.Choice.{KnownTop, Decided, chosen_of, ChosenInside, Meetable, met_below, Met, Chosen};

use crate::slot::{highest_valid, is_older, may_take, valid_version};
use crate::take::{end_fault, named_version, newest_version, slots_told};
use allocation::{Choice, Known, Progress};
use layout_fields_code::fields::{slot_high, slot_low};

// What has to be known of the highest valid version to test slot s: the image is looked through only where what is
// known does not tell.
fn known_for(image: &[u8], n: usize, top: u64, exact: bool, s: usize) -> Known
    requires { KnownTop (word image.now) n top exact × (128 * (n + 1) ≤ length image.now) × (128 * (s + 1) ≤ length image.now) }
    ensures { KnownTop (word image.now) n result.top result.exact × Decided image.now n result.top s }
{
    if exact {
        return Known { top, exact };
    }
    let version = valid_version(image, s);
    if version == 0 || version < top {
        return Known { top, exact };
    }
    Known {
        top: highest_valid(image, n),
        exact: true,
    }
}

// Does one of the first `got` slots have a valid record of this key that is older than this version?
fn is_older_chosen(
    image: &[u8],
    l: usize,
    slots: [u32; 8],
    got: usize,
    low: u64,
    high: u64,
    version: u64,
) -> bool
    requires { Layout l × ChosenInside image.now slots got }
    ensures { result ≡ any_in (older_than (contents_of l image.now) (key_with low high) version) (chosen_of slots got) }
{
    slots[..got]
        .iter()
        .any(|t| is_older(image, l, *t as usize, low, high, version))
}

// May slot s be taken after the first `got` slots, where no valid record of version `top` or above may? An older record
// of its key is looked for in them alone.
fn may_take_after(
    image: &[u8],
    l: usize,
    n: usize,
    top: u64,
    slots: [u32; 8],
    got: usize,
    s: usize,
) -> bool
    requires { SlotInside image.now l s × (128 * (n + 1) ≤ length image.now) × ChosenInside image.now slots got }
    ensures { result ≡ takeable_if top (any_in (older (contents_of l image.now) s) (chosen_of slots got)) (contents_of l image.now s) }
{
    if may_take(image, l, n, top, false, s) {
        return true;
    }
    let version = valid_version(image, s);
    version < top
        && !is_older_chosen(
            image,
            l,
            slots,
            got,
            slot_low(image, s),
            slot_high(image, l, s),
            version,
        )
}

// The slot is taken or passed over, by the version that p has.
fn meet_below(image: &[u8], l: usize, next: &[u32], n: usize, p: Progress) -> Progress
    requires { Walkable image.now next.now l n × Meetable n p }
    ensures { result ≡ met_below l image.now next.now p }
{
    let slot = p.at as usize;
    let met = Progress {
        at: next[slot],
        left: p.left - 1,
        ..p
    };
    if !may_take_after(image, l, n, p.top, p.slots, p.got, slot) {
        return Progress { prev: p.at, ..met };
    }
    let mut slots = p.slots;
    let mut prevs = p.prevs;
    slots[p.got] = p.at;
    prevs[p.got] = p.prev;
    Progress {
        got: p.got + 1,
        slots,
        prevs,
        ..met
    }
}

// The same, by the highest valid version: as much is known of it as has to be.
fn meet(image: &[u8], l: usize, next: &[u32], n: usize, p: Progress) -> Progress
    requires { Walkable image.now next.now l n × Meetable n p × KnownTop (word image.now) n p.top p.exact }
    ensures { Met l image.now next.now n p result }
{
    let slot = p.at as usize;
    let Known { top, exact } = known_for(image, n, p.top, p.exact, slot);
    meet_below(image, l, next, n, Progress { top, exact, ..p })
}

// No slots, with this refusal.
pub fn none_chosen(fault: u32) -> Choice
    ensures result { result.fault ≡ fault }
{
    Choice {
        fault,
        slots: [0; 8],
        prevs: [0; 8],
    }
}

// The slots by this version, so many as are wanted; or 11 by a link, or 28 where too few may be taken.
pub fn choose_below(
    image: &[u8],
    l: usize,
    next: &[u32],
    n: usize,
    first: u32,
    wanted: usize,
    top: u64,
) -> Choice
    requires { Walkable image.now next.now l n × (0 < wanted) × (wanted ≤ 8) }
    ensures result { Chosen (allocate_from (may_take_below l image.now top) next.now n first wanted)
        (allocate_from (may_take_below l image.now top) next.now n first wanted) wanted result }
{
    let mut p = Progress {
        at: first,
        prev: 0,
        left: n,
        got: 0,
        top,
        exact: true,
        slots: [0; 8],
        prevs: [0; 8],
    };
    // A while: a step takes a slot or passes it over, so no range gives how many there are.
    while p.got < wanted {
        if p.at == 0 {
            return none_chosen(28);
        }
        if n < p.at as usize || p.left == 0 {
            return none_chosen(11);
        }
        p = meet_below(image, l, next, n, p);
    }
    let fault = end_fault(n, p.left, p.at);
    if fault != 0 {
        return none_chosen(fault);
    }
    let Progress { slots, prevs, .. } = p;
    Choice {
        fault: 0,
        slots,
        prevs,
    }
}

// The slots of a basket that is not refused by them.
fn choose_unrefused(
    image: &[u8],
    l: usize,
    next: &[u32],
    n: usize,
    first: u32,
    wanted: usize,
    top: u64,
    exact: bool,
) -> Choice
    requires { Walkable image.now next.now l n × (0 < wanted) × (wanted ≤ 8) × KnownTop (word image.now) n top exact ×
        (take_fault (allocation_by_rule l image.now next.now n first wanted) ≡ 0) }
    ensures { Chosen (allocation_by_rule l image.now next.now n first wanted)
        (allocation_chosen l image.now next.now n first wanted) wanted result }
{
    let mut p = Progress {
        at: first,
        prev: 0,
        left: n,
        got: 0,
        top,
        exact,
        slots: [0; 8],
        prevs: [0; 8],
    };
    // A while: a step takes a slot or passes it over, so no range gives how many there are.
    while p.got < wanted {
        p = meet(image, l, next, n, p);
    }
    let Progress { slots, prevs, .. } = p;
    Choice {
        fault: 0,
        slots,
        prevs,
    }
}

// The slots that a basket takes, so many as are wanted, by the slot that the state names as the newest; or 11 by a
// link, or 28 where too few may be taken.
fn choose(
    image: &[u8],
    l: usize,
    next: &[u32],
    n: usize,
    first: u32,
    newest: u32,
    wanted: usize,
) -> Choice
    requires { Walkable image.now next.now l n × (0 < wanted) × (wanted ≤ 8) }
    ensures { Chosen (allocation_by_rule l image.now next.now n first wanted)
        (allocation_chosen l image.now next.now n first wanted) wanted result }
{
    let known = newest_version(image, n, newest);
    let told = slots_told(image, l, next, n, first, wanted, known, true);
    if told.fault != 0 {
        return none_chosen(told.fault);
    }
    choose_unrefused(image, l, next, n, first, wanted, told.top, told.exact)
}

// The same for a call of either family.
pub fn choose_by(
    own: bool,
    image: &[u8],
    l: usize,
    next: &[u32],
    n: usize,
    first: u32,
    newest: u32,
    wanted: usize,
) -> Choice
    requires { Walkable image.now next.now l n × (0 < wanted) × (wanted ≤ 8) }
    ensures result { Chosen (allocation_by own l image.now next.now n first newest wanted)
        (allocation_chosen_by own l image.now next.now n first newest wanted) wanted result }
{
    if own {
        let top = named_version(image, n, newest);
        choose_below(image, l, next, n, first, wanted, top)
    } else {
        choose(image, l, next, n, first, newest, wanted)
    }
}
