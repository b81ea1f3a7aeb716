// The old records of a basket's keys, and the refusals for the keys. `l` is the layout.
ghost use Rattle.std.specs.Prelude.{◌≡◌, not, ◌≤◌, eqb};
ghost use Rattle.layout.specs.Record.{Layout};
ghost use Rattle.layout.specs.inner.Sized.{Sized};
ghost use Rattle.index.specs.Walk.{search};
ghost use Rattle.calls.specs.Basket.{old_in};
ghost use Rattle.calls.specs.BasketRefusals.{action_fault};
ghost use Rattle.calls.specs.inner.Basket.{OldsOf, ActionsFault};

use crate::given::high_in;
use calls::{BasketItem, Olds};
use index::{Action, Found};
use index_read_code::fault::{chain_fault, key_fault};
use index_read_code::search::find_key;

// The slot that holds the key, 0 for none.
fn old_in(found: Found) -> u32
    ensures { result ≡ old_in found }
{
    match found {
        Found::At { slot, .. } => slot,
        Found::Missing { .. } | Found::BadChain => 0,
    }
}

// The slots that hold the keys, or 11 by the first chain that no set has.
pub fn find_olds(
    image: &[u8],
    l: usize,
    heads: &[u32],
    next: &[u32],
    n: usize,
    count: usize,
    items: [BasketItem; 8],
) -> Olds
    requires { Layout l × Sized image.now heads.now next.now n × (count ≤ 8) }
    ensures result { OldsOf (search l image.now heads.now next.now) l count items result }
{
    let mut slots = [0; 8];
    for i in 0..count {
        let item = items[i];
        let high = high_in(l, item.high);
        let found = find_key(image, l, heads, next, n, item.low, high);
        let fault = chain_fault(found);
        if fault != 0 {
            return Olds { fault, slots };
        }
        slots[i] = old_in(found);
    }
    Olds { fault: 0, slots }
}

// 20 for an insert of a held key, 21 for a replace or a remove of one that is not held, else 0; old is the slot that
// holds it, 0 for none.
fn action_fault(action: Action, old: u32) -> u32
    ensures { result ≡ action_fault action (not (eqb old 0)) }
{
    match action {
        Action::Write(mode) => key_fault(mode, old != 0),
        Action::Remove => {
            if old == 0 {
                return 21;
            }
            0
        }
    }
}

// 20 or 21 for the first key that has one, else 0.
pub fn actions_fault(items: [BasketItem; 8], count: usize, olds: [u32; 8]) -> u32
    requires { count ≤ 8 }
    ensures result { ActionsFault items count olds result }
{
    for i in 0..count {
        let fault = action_fault(items[i].action, olds[i]);
        if fault != 0 {
            return fault;
        }
    }
    0
}
