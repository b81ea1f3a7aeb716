// Following a key's chain.
ghost use Rattle.std.specs.Prelude.{◌≡◌};
ghost use Rattle.prelude.specs.Refusal.{unless_refused};
ghost use Rattle.layout.specs.Record.{Layout, key_with};
ghost use Rattle.layout.specs.inner.Sized.{Sized};
ghost use Rattle.index.specs.Walk.{search, compared_in};
ghost use Rattle.index.specs.declared.Lookup.TheVariants.{Refused, Accepted};
ghost use Rattle.index.specs.inner.Lookup.{lookup_by};

use crate::head::head_of;
use index::{Found, Lookup, Place};
use layout_fields_code::fields::has_key;

// The link of the last slot of a chain: no slot.
const END: u32 = 0;

// Follows the chain of the key's head, up to the first slot with that key or the end.
pub fn find_key(
    image: &[u8],
    l: usize,
    heads: &[u32],
    next: &[u32],
    n: usize,
    low: u64,
    high: u64,
) -> Found
    requires { Layout l × Sized image.now heads.now next.now n }
    ensures result { result ≡ search l image.now heads.now next.now (key_with low high) }
{
    let head = head_of(low, heads.len());
    let mut at = heads[head];
    let mut prev: u32 = 0;
    let mut compared: u32 = 0;
    for _ in 0..n {
        if at == END {
            return Found::Missing { prev, compared };
        }
        let slot = at as usize;
        if n < slot {
            return Found::BadChain;
        }
        compared += 1;
        if has_key(image, l, slot, low, high) {
            return Found::At {
                slot: at,
                prev,
                compared,
            };
        }
        prev = at;
        at = next[slot];
    }
    Found::BadChain
}

// The slots compared, by what the key's chain has.
#[tactic(auto, unfolding(index::specs::Walk::compared_in))]
fn compared_in(found: Found) -> u32
    ensures { result ≡ compared_in found }
{
    match found {
        Found::At { compared, .. } | Found::Missing { compared, .. } => compared,
        Found::BadChain => 0,
    }
}

// The lookup of a call by what the key's chain has; fault is the call's refusal then.
pub fn looked_up(fault: u32, found: Found) -> Lookup
    ensures result { result ≡ lookup_by fault found }
{
    if fault != 0 {
        return Lookup::Refused {
            number: fault,
            compared: compared_in(found),
        };
    }
    match found {
        Found::At {
            slot,
            prev,
            compared,
        } => Lookup::Accepted {
            place: Place::Held { slot, prev },
            compared,
        },
        Found::Missing { prev, compared } => Lookup::Accepted {
            place: Place::NotHeld { prev },
            compared,
        },
        Found::BadChain => Lookup::Refused {
            number: fault,
            compared: 0,
        },
    }
}

// The same of a call that goes by the key's place, once that is known.
pub fn unless_refused(fault: u32, place: Place, compared: u32) -> Lookup
    ensures result { result ≡ unless_refused fault (Accepted place compared) (Refused fault compared) }
{
    if fault != 0 {
        return Lookup::Refused {
            number: fault,
            compared,
        };
    }
    Lookup::Accepted { place, compared }
}
