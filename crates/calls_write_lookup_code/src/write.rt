// What an insert or a replace reads before it writes. The two are functions of their own, so that each is compiled for
// its mode alone; write_lookup calls the one of its mode.
ghost use Rattle.std.specs.Prelude.{◌≡◌};
ghost use Rattle.layout.specs.Record.{Layout, key_with};
ghost use Rattle.index.specs.declared.Mode.TheVariants.{Insert, Replace};
ghost use Rattle.index.specs.Index.{index_of};
ghost use Rattle.calls.specs.Change.{write_lent_fault};
ghost use Rattle.calls.specs.inner.Lookup.{WriteLookup};

use crate::store::lookup_at;
use index::{Found, Lookup, Mode, Place, State};
use index_read_code::search::find_key;
use layout_code::header::{check_lent, slot_count};
use layout_fields_code::fields::value_limit;
use refusals::return_code;

// 1, 2, 3, 4 or 10 by what is lent, else 0; size is the value's length.
fn write_lent_fault(image: &[u8], l: usize, heads: usize, next: usize, size: usize) -> u32
    requires { Layout l }
    ensures { result ≡ write_lent_fault l image.now heads next size }
{
    let lent = return_code(check_lent(image, l, heads, next));
    if lent != 0 {
        return lent;
    }
    if value_limit(l) < size {
        return 10;
    }
    0
}

// What an insert reads before it writes: one match, as in a remove.
pub fn insert_lookup(
    image: &[u8],
    l: usize,
    heads: &[u32],
    next: &[u32],
    state: State,
    low: u64,
    high: u64,
    size: usize,
    own: bool,
) -> Lookup
    requires { Layout l }
    ensures result { WriteLookup own l image.now (index_of heads.now next.now state) Insert
        (key_with low high) size result }
{
    let lent = write_lent_fault(image, l, heads.len(), next.len(), size);
    if lent != 0 {
        return Lookup::Refused {
            number: lent,
            compared: 0,
        };
    }
    let n = slot_count(image.len());
    let found = find_key(image, l, heads, next, n, low, high);
    match found {
        Found::At { compared, .. } => Lookup::Refused {
            number: 20,
            compared,
        },
        Found::Missing { prev, compared } => {
            let place = Place::NotHeld { prev };
            lookup_at::<1, 0>(image, l, next, n, state, own, place, compared)
        }
        Found::BadChain => Lookup::Refused {
            number: 11,
            compared: 0,
        },
    }
}

// What a replace reads before it writes.
pub fn replace_lookup(
    image: &[u8],
    l: usize,
    heads: &[u32],
    next: &[u32],
    state: State,
    low: u64,
    high: u64,
    size: usize,
    own: bool,
) -> Lookup
    requires { Layout l }
    ensures result { WriteLookup own l image.now (index_of heads.now next.now state) Replace
        (key_with low high) size result }
{
    let lent = write_lent_fault(image, l, heads.len(), next.len(), size);
    if lent != 0 {
        return Lookup::Refused {
            number: lent,
            compared: 0,
        };
    }
    let n = slot_count(image.len());
    let found = find_key(image, l, heads, next, n, low, high);
    match found {
        Found::At {
            slot,
            prev,
            compared,
        } => {
            let place = Place::Held { slot, prev };
            lookup_at::<0, 0>(image, l, next, n, state, own, place, compared)
        }
        Found::Missing { compared, .. } => Lookup::Refused {
            number: 21,
            compared,
        },
        Found::BadChain => Lookup::Refused {
            number: 11, // no chain, whatever the key
            compared: 0,
        },
    }
}

// What an insert or a replace reads before it writes, by the mode.
pub fn write_lookup(
    image: &[u8],
    l: usize,
    heads: &[u32],
    next: &[u32],
    state: State,
    mode: Mode,
    low: u64,
    high: u64,
    size: usize,
    own: bool,
) -> Lookup
    requires { Layout l }
    ensures result { WriteLookup own l image.now (index_of heads.now next.now state) mode (key_with low high) size result }
{
    match mode {
        Mode::Insert => insert_lookup(image, l, heads, next, state, low, high, size, own),
        Mode::Replace => replace_lookup(image, l, heads, next, state, low, high, size, own),
    }
}
