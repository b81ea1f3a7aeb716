// Get: the value of a key. `l` is the layout; a key is two words, the high one 0 in layout 1.
ghost use Rattle.std.specs.Prelude.{◌≡◌};
ghost use Rattle.layout.specs.Record.{Layout, key_with};
ghost use Rattle.layout.specs.Layouts.{layout_number};
ghost use Rattle.calls.specs.Moved.{get_moved};
ghost use Rattle.calls.specs.Get.{get_end, length_fault, get_later_fault, get_result};
ghost use Rattle.calls.specs.inner.Lookup.{FoundInside, GetLookup};

use calls::{GetAnswer, Got};
use index::{Found, Lookup, Place};
use index_read_code::search::{find_key, looked_up};
use layout_code::header::{check_lent, slot_count};
use layout_code::value::copy_value;
use layout_fields_code::fields::{layout_number, slot_length, value_limit};
use refusals::return_code;

// 23 or 13 for a value of n bytes and an output of this size, else 0.
fn length_fault(l: usize, n: usize, size: usize) -> u32
    requires { Layout l }
    ensures { result ≡ length_fault l n size }
{
    if value_limit(l) < n {
        return 23;
    }
    if size < n {
        return 13;
    }
    0
}

// 11 (chain), 23 or 13 by what the key's chain has, else 0.
fn get_later_fault(image: &[u8], l: usize, size: usize, found: Found) -> u32
    requires { Layout l × FoundInside l image.now found }
    ensures { result ≡ get_later_fault l image.now size found }
{
    match found {
        Found::At { slot, .. } => length_fault(l, slot_length(image, l, slot as usize), size),
        Found::Missing { .. } => 0,
        Found::BadChain => 11,
    }
}

// What a get reads before it writes.
fn get_lookup(
    image: &[u8],
    l: usize,
    heads: &[u32],
    next: &[u32],
    low: u64,
    high: u64,
    size: usize,
) -> Lookup
    requires { Layout l }
    ensures { GetLookup l image.now heads.now next.now (key_with low high) size result }
{
    let lent = return_code(check_lent(image, l, heads.len(), next.len()));
    if lent != 0 {
        return Lookup::Refused {
            number: lent,
            compared: 0,
        };
    }
    let found = find_key(image, l, heads, next, slot_count(image.len()), low, high);
    let fault = get_later_fault(image, l, size, found);
    looked_up(fault, found)
}

// Get, in layout l.
pub fn get_in(
    image: &[u8],
    l: usize,
    heads: &[u32],
    next: &[u32],
    low: u64,
    high: u64,
    out: &mut [u8],
) -> GetAnswer
    requires { Layout l }
    ensures result { get_end result out.new
        ≡ get_result l image.now heads.now next.now (key_with low high) out.old }
    ensures moved { result.moved ≡ get_moved result.got }
{
    let lookup = get_lookup(image, l, heads, next, low, high, out.len());
    match lookup {
        Lookup::Refused { number, compared } => GetAnswer {
            got: Got::Refused(number),
            compared,
            moved: 0,
        },
        Lookup::Accepted { place, compared } => match place {
            Place::NotHeld { .. } => GetAnswer {
                got: Got::Absent,
                compared,
                moved: 0,
            },
            Place::Held { slot, .. } => {
                let n = slot_length(image, l, slot as usize);
                let moved = copy_value(image, l, slot as usize, out, n);
                GetAnswer {
                    got: Got::Length(n),
                    compared,
                    moved,
                }
            }
        },
    }
}

// Get, in either layout.
pub fn get_in_layout(
    image: &[u8],
    wide: bool,
    heads: &[u32],
    next: &[u32],
    low: u64,
    high: u64,
    out: &mut [u8],
) -> GetAnswer
    ensures result { get_end result out.new
        ≡ get_result (layout_number wide) image.now heads.now next.now (key_with low high) out.old }
    ensures moved { result.moved ≡ get_moved result.got }
{
    get_in(image, layout_number(wide), heads, next, low, high, out)
}

// The value of the key fills the front of out: its length, absent, or a refusal. Neither of the last two changes out.
// Each has the slots compared and the words moved.
pub fn get(image: &[u8], heads: &[u32], next: &[u32], key: u64, out: &mut [u8]) -> GetAnswer
    ensures result { get_end result out.new
        ≡ get_result 1 image.now heads.now next.now key out.old }
    ensures moved { result.moved ≡ get_moved result.got }
{
    get_in(image, 1, heads, next, key, 0, out)
}

// Get in layout 2: a key of two words.
pub fn get2(
    image: &[u8],
    heads: &[u32],
    next: &[u32],
    low: u64,
    high: u64,
    out: &mut [u8],
) -> GetAnswer
    ensures result { get_end result out.new
        ≡ get_result 2 image.now heads.now next.now (key_with low high) out.old }
    ensures moved { result.moved ≡ get_moved result.got }
{
    get_in(image, 2, heads, next, low, high, out)
}
