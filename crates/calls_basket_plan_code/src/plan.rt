// What a basket reads before it writes. `l` is the layout.
ghost use Rattle.std.specs.Prelude.{◌≡◌, ◌≤◌, ◌<◌};
ghost use Rattle.layout.specs.Record.{Layout};
ghost use Rattle.layout.specs.Size.{slots_in};
ghost use Rattle.layout.specs.inner.Sized.{Sized};
ghost use Rattle.calls.specs.inner.Basket.{KeysPlanned, Planned};

use crate::given::given_fault;
use crate::olds::{actions_fault, find_olds};
use crate::sizes::basket_lent_fault;
use crate::slots::choose_slots;
use crate::totals::totals_of;
use allocation::Choice;
use calls::{BasketItem, Plan};
use index::State;
use layout_code::header::slot_count;

// No plan, with this refusal.
fn refused_plan(fault: u32) -> Plan
    ensures { result.fault ≡ fault }
{
    Plan {
        fault,
        olds: [0; 8],
        slots: [0; 8],
        prevs: [0; 8],
    }
}

// The refusal of a basket after those by what is given and lent, or what it is to be written by.
fn plan_keys(
    image: &[u8],
    l: usize,
    heads: &[u32],
    next: &[u32],
    n: usize,
    state: State,
    count: usize,
    items: [BasketItem; 8],
    own: bool,
) -> Plan
    requires { Layout l × Sized image.now heads.now next.now n × (0 < count) × (count ≤ 8) × (2 ≤ n) }
    ensures { KeysPlanned own l image.now heads.now next.now n state count items result }
{
    let found = find_olds(image, l, heads, next, n, count, items);
    if found.fault != 0 {
        return refused_plan(found.fault);
    }
    let olds = found.slots;
    let held = actions_fault(items, count, olds);
    if held != 0 {
        return refused_plan(held);
    }
    let totals = totals_of(items, count);
    let Choice {
        fault,
        slots,
        prevs,
    } = choose_slots(
        image,
        l,
        next,
        n,
        state,
        count,
        totals.inserts,
        totals.removes,
        own,
    );
    Plan {
        fault,
        olds,
        slots,
        prevs,
    }
}

// The refusal of a basket, or what it is to be written by.
pub fn plan(
    image: &[u8],
    l: usize,
    heads: &[u32],
    next: &[u32],
    state: State,
    count: usize,
    items: [BasketItem; 8],
    at: usize,
    words: usize,
    own: bool,
) -> Plan
    requires { Layout l }
    ensures result { Planned own l image.now heads.now next.now (slots_in image.now) state count
        items at words result }
{
    let given = given_fault(l, count, items, at, words);
    if given != 0 {
        return refused_plan(given);
    }
    let lent = basket_lent_fault(image, l, heads.len(), next.len(), count, items);
    if lent != 0 {
        return refused_plan(lent);
    }
    let n = slot_count(image.len());
    plan_keys(image, l, heads, next, n, state, count, items, own)
}
