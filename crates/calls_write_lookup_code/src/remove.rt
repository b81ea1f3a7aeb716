// What a remove reads before it writes.
ghost use Rattle.layout.specs.Record.{Layout, key_with};
ghost use Rattle.index.specs.Index.{index_of};
ghost use Rattle.calls.specs.inner.Lookup.{RemoveLookup};

use crate::store::lookup_at;
use index::{Found, Lookup, Place, State};
use index_read_code::search::find_key;
use layout_code::header::{check_lent, slot_count};
use refusals::return_code;

// What a remove reads before it writes. One match gives both the refusal and the place, so that few values live at
// once.
pub fn remove_lookup(
    image: &[u8],
    l: usize,
    heads: &[u32],
    next: &[u32],
    state: State,
    low: u64,
    high: u64,
    own: bool,
) -> Lookup
    requires { Layout l }
    ensures result { RemoveLookup own l image.now (index_of heads.now next.now state) (key_with low high) result }
{
    let lent = return_code(check_lent(image, l, heads.len(), next.len()));
    if lent != 0 {
        return Lookup::Refused {
            number: lent,
            compared: 0,
        };
    }
    let n = slot_count(image.len());
    let found = find_key(image, l, heads, next, n, low, high);
    match found {
        Found::At {
            slot,
            prev,
            compared,
        } => {
            let place = Place::Held { slot, prev };
            lookup_at::<0, 1>(image, l, next, n, state, own, place, compared)
        }
        Found::Missing { prev, compared } => Lookup::Accepted {
            place: Place::NotHeld { prev },
            compared,
        },
        Found::BadChain => Lookup::Refused {
            number: 11,
            compared: 0,
        },
    }
}
