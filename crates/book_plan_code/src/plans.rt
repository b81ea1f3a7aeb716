// What each step is to do, by what it reads. Nothing is written here. A key is two words, the high one 0 in layout 1.
ghost use Rattle.std.specs.Prelude.{◌≡◌, ◌<◌, replicate};
ghost use Rattle.interface.specs.Set.{layout_number, key_with, limit, locate_says, locate_result};
ghost use Rattle.book.specs.Steps.{seek};
ghost use Rattle.book.specs.inner.Courses.{seek_says, sought_number, plan_says, new_course};
ghost use Rattle.book.specs.inner.Courses.{already_course, acknowledge_course, fill_order, fill_course, withdraw_course};

use crate::orders::order_in;
use book::{Order, Plan, Seek};
use orderset::layouts::{get_in_layout, layout_number, locate_in_layout};
use orderset::{Got, Located, Mode};

// The number of a get's refusal, as a step says it.
fn sought_number(number: u32) -> u32
    ensures { result ≡ sought_number number }
{
    if number == 23 { 18 } else { number }
}

// The order of the key, or a refusal: by a get with this output, of zeros and as long as a value may be.
fn seek_with(
    image: &[u8],
    wide: bool,
    heads: &[u32],
    next: &[u32],
    low: u64,
    high: u64,
    out: &mut [u8],
) -> Seek
    requires { out.old ≡ replicate (limit (layout_number wide)) 0 }
    ensures order { seek_says result
        ≡ seek (layout_number wide) image.now heads.now next.now (key_with low high) }
{
    match get_in_layout(image, wide, heads, next, low, high, out).got {
        Got::Length(n) => order_in(out, n),
        Got::Absent => Seek::Missing(18),
        Got::Refused(number) => Seek::Missing(sought_number(number)),
    }
}

// The order of the key, or a refusal.
fn seek_order(image: &[u8], wide: bool, heads: &[u32], next: &[u32], low: u64, high: u64) -> Seek
    ensures order { seek_says result
        ≡ seek (layout_number wide) image.now heads.now next.now (key_with low high) }
{
    let mut out = [0u8; 80];
    let size = 88 - 8 * layout_number(wide);
    seek_with(image, wide, heads, next, low, high, &mut out[..size])
}

// A new order, by what locate answers for its key.
fn new_located(located: Located, quantity: u64) -> Plan
    ensures { plan_says result ≡ new_course quantity (locate_says located) }
{
    match located {
        Located::At { .. } => Plan::Refused(17),
        Located::Absent => {
            if quantity == 0 {
                return Plan::Refused(19);
            }
            Plan::Write {
                mode: Mode::Insert,
                order: Order {
                    state: 1,
                    ordered: quantity,
                    filled: 0,
                },
            }
        }
        Located::Refused(number) => Plan::Refused(number),
    }
}

// A new order.
pub fn new_plan(
    image: &[u8],
    wide: bool,
    heads: &[u32],
    next: &[u32],
    low: u64,
    high: u64,
    quantity: u64,
) -> Plan
    ensures plan { plan_says result
        ≡ new_course quantity (locate_result (layout_number wide) image.now heads.now next.now (key_with low high)).answer }
{
    let answer = locate_in_layout(image, wide, heads, next, low, high);
    new_located(answer.located, quantity)
}

// An acknowledge of an order that was acknowledged before, by what locate answers for its key.
fn already_located(located: Located) -> Plan
    ensures { plan_says result ≡ already_course (locate_says located) }
{
    match located {
        Located::At { slot, version } => Plan::Already { slot, version },
        Located::Absent => Plan::Refused(18),
        Located::Refused(number) => Plan::Refused(number),
    }
}

// An acknowledge.
pub fn acknowledge_plan(
    image: &[u8],
    wide: bool,
    heads: &[u32],
    next: &[u32],
    low: u64,
    high: u64,
) -> Plan
    ensures plan { plan_says result
        ≡ acknowledge_course
        (locate_result (layout_number wide) image.now heads.now next.now (key_with low high)).answer
        (seek (layout_number wide) image.now heads.now next.now (key_with low high)) }
{
    let sought = seek_order(image, wide, heads, next, low, high);
    match sought {
        Seek::Found(order) => {
            if order.state == 2 {
                let answer = locate_in_layout(image, wide, heads, next, low, high);
                return already_located(answer.located);
            }
            Plan::Write {
                mode: Mode::Replace,
                order: Order { state: 2, ..order },
            }
        }
        Seek::Missing(number) => Plan::Refused(number),
    }
}

// A fill of this order.
fn fill_order(order: Order, quantity: u64) -> Plan
    requires { order.filled < order.ordered }
    ensures { plan_says result ≡ fill_order quantity order }
{
    let open = order.ordered - order.filled;
    if quantity == 0 || open < quantity {
        return Plan::Refused(19);
    }
    if quantity == open {
        return Plan::Remove;
    }
    Plan::Write {
        mode: Mode::Replace,
        order: Order {
            filled: order.filled + quantity,
            ..order
        },
    }
}

// A fill.
pub fn fill_plan(
    image: &[u8],
    wide: bool,
    heads: &[u32],
    next: &[u32],
    low: u64,
    high: u64,
    quantity: u64,
) -> Plan
    ensures plan { plan_says result
        ≡ fill_course quantity (seek (layout_number wide) image.now heads.now next.now (key_with low high)) }
{
    let sought = seek_order(image, wide, heads, next, low, high);
    match sought {
        Seek::Found(order) => fill_order(order, quantity),
        Seek::Missing(number) => Plan::Refused(number),
    }
}

// A withdraw.
pub fn withdraw_plan(
    image: &[u8],
    wide: bool,
    heads: &[u32],
    next: &[u32],
    low: u64,
    high: u64,
) -> Plan
    ensures plan { plan_says result
        ≡ withdraw_course (seek (layout_number wide) image.now heads.now next.now (key_with low high)) }
{
    let sought = seek_order(image, wide, heads, next, low, high);
    match sought {
        Seek::Found(_) => Plan::Remove,
        Seek::Missing(number) => Plan::Refused(number),
    }
}
