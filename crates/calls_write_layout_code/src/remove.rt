// Remove with the layout as a parameter. A key is two words, the high one 0 in layout 1.
ghost use Rattle.std.specs.Prelude.{◌≡◌};
ghost use Rattle.layout.specs.Record.{Layout, key_with};
ghost use Rattle.layout.specs.Layouts.{layout_number};
ghost use Rattle.stores.specs.Store.{zipped};
ghost use Rattle.index.specs.Index.{index_of};
ghost use Rattle.calls.specs.Change.{change_end, buffers_after, remove_result_by};

use calls::{Change, Outcome};
use calls_write_lookup_code::remove::remove_lookup;
use index::{Lookup, Place, State};
use index_read_code::head::head_of;
use index_write_code::change::remove_held;
use layout_fields_code::fields::layout_number;
use stores_record_code::record::remove_stores;

// Remove, in layout l. The stores are lent: at is their word numbers, words their values; own tells whether the call is
// for the owner of its index.
pub fn remove_in(
    image: &[u8],
    l: usize,
    heads: &mut [u32],
    next: &mut [u32],
    state: State,
    low: u64,
    high: u64,
    at: &mut [u32; 16],
    words: &mut [u64; 16],
    own: bool,
) -> Change
    requires { Layout l }
    ensures result { change_end result at.new words.new heads.new next.new
        ≡ buffers_after (zipped at.old words.old)
        (remove_result_by own l image.now (index_of heads.old next.old state) (key_with low high)) }
    ensures moved { result.moved ≡ 0 }
{
    let lookup = remove_lookup(image, l, heads, next, state, low, high, own);
    match lookup {
        Lookup::Refused { number, compared } => Change {
            outcome: Outcome::Refused(number),
            state,
            compared,
            moved: 0,
        },
        Lookup::Accepted { place, compared } => match place {
            Place::NotHeld { .. } => Change {
                outcome: Outcome::Absent,
                state,
                compared,
                moved: 0,
            },
            Place::Held { slot, prev } => {
                let h = head_of(low, heads.len());
                let after = remove_held(heads, next, state, h, prev, slot);
                remove_stores(
                    image,
                    l,
                    state.first,
                    low,
                    high,
                    0,
                    state.version,
                    at,
                    words,
                );
                Change {
                    outcome: Outcome::Stored {
                        slot: state.first,
                        version: state.version,
                    },
                    state: after,
                    compared,
                    moved: 0,
                }
            }
        },
    }
}

// Remove, in either layout.
pub fn remove_in_layout(
    image: &[u8],
    wide: bool,
    heads: &mut [u32],
    next: &mut [u32],
    state: State,
    low: u64,
    high: u64,
    at: &mut [u32; 16],
    words: &mut [u64; 16],
    own: bool,
) -> Change
    ensures result { change_end result at.new words.new heads.new next.new
        ≡ buffers_after (zipped at.old words.old)
        (remove_result_by own (layout_number wide) image.now (index_of heads.old next.old state) (key_with low high)) }
    ensures moved { result.moved ≡ 0 }
{
    remove_in(
        image,
        layout_number(wide),
        heads,
        next,
        state,
        low,
        high,
        at,
        words,
        own,
    )
}
