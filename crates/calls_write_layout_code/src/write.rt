// Insert and replace with the layout as a parameter. A key is two words, the high one 0 in layout 1.
ghost use Rattle.std.specs.Prelude.{◌≡◌, length};
ghost use Rattle.layout.specs.Record.{Layout, key_with};
ghost use Rattle.layout.specs.Layouts.{layout_number};
ghost use Rattle.stores.specs.Store.{zipped};
ghost use Rattle.index.specs.declared.Mode.{Mode};
ghost use Rattle.index.specs.declared.Mode.TheVariants.{Insert, Replace};
ghost use Rattle.index.specs.Index.{index_of};
ghost use Rattle.calls.specs.Moved.{write_moved};
ghost use Rattle.calls.specs.inner.Lookup.{WriteLookup};
ghost use Rattle.calls.specs.Change.{change_end, buffers_after, write_result_by};

use calls::{Change, Outcome};
use calls_write_lookup_code::write::{insert_lookup, replace_lookup};
use index::{Lookup, Mode, State};
use index_read_code::head::head_of;
use index_write_code::change::write_place;
use layout_fields_code::fields::layout_number;
use stores_record_code::record::record_stores;

// What an insert or a replace reads before it writes. The two are types, so that change_in is compiled for each.
trait Lookups {
    ghost mode: { Mode };

    fn lookup(
        image: &[u8],
        l: usize,
        heads: &[u32],
        next: &[u32],
        state: State,
        low: u64,
        high: u64,
        size: usize,
        own: bool,
    ) -> Lookup
        requires { Layout l }
        ensures { WriteLookup own l image.now (index_of heads.now next.now state) mode (key_with low high) size result };
}

struct Inserting;

struct Replacing;

impl Lookups for Inserting {
    ghost mode = { Insert };

    fn lookup(
        image: &[u8],
        l: usize,
        heads: &[u32],
        next: &[u32],
        state: State,
        low: u64,
        high: u64,
        size: usize,
        own: bool,
    ) -> Lookup {
        insert_lookup(image, l, heads, next, state, low, high, size, own)
    }
}

impl Lookups for Replacing {
    ghost mode = { Replace };

    fn lookup(
        image: &[u8],
        l: usize,
        heads: &[u32],
        next: &[u32],
        state: State,
        low: u64,
        high: u64,
        size: usize,
        own: bool,
    ) -> Lookup {
        replace_lookup(image, l, heads, next, state, low, high, size, own)
    }
}

// Insert or replace, in layout l, by what it reads. The stores are lent: at is their word numbers, words their values;
// own tells whether the call is for the owner of its index.
fn change_in<M: Lookups>(
    image: &[u8],
    l: usize,
    heads: &mut [u32],
    next: &mut [u32],
    state: State,
    low: u64,
    high: u64,
    value: &[u8],
    at: &mut [u32; 16],
    words: &mut [u64; 16],
    own: bool,
) -> Change
    requires { Layout l }
    ensures result { change_end result at.new words.new heads.new next.new
        ≡ buffers_after (zipped at.old words.old)
        (write_result_by own l image.now (index_of heads.old next.old state) M.mode (key_with low high)
        value.now) }
    ensures moved { result.moved ≡ write_moved result.outcome (length value.now) }
{
    let lookup = M::lookup(image, l, heads, next, state, low, high, value.len(), own);
    match lookup {
        Lookup::Refused { number, compared } => Change {
            outcome: Outcome::Refused(number),
            state,
            compared,
            moved: 0,
        },
        Lookup::Accepted { place, compared } => {
            let h = head_of(low, heads.len());
            let after = write_place(heads, next, state, h, place);
            let moved = record_stores(
                image,
                l,
                state.first,
                low,
                high,
                1, // a put
                0,
                value,
                state.version,
                at,
                words,
            );
            Change {
                outcome: Outcome::Stored {
                    slot: state.first,
                    version: state.version,
                },
                state: after,
                compared,
                moved, // by record_stores
            }
        }
    }
}

// Insert, in layout l.
pub fn insert_in(
    image: &[u8],
    l: usize,
    heads: &mut [u32],
    next: &mut [u32],
    state: State,
    low: u64,
    high: u64,
    value: &[u8],
    at: &mut [u32; 16],
    words: &mut [u64; 16],
    own: bool,
) -> Change
    requires { Layout l }
    ensures result { change_end result at.new words.new heads.new next.new
        ≡ buffers_after (zipped at.old words.old)
        (write_result_by own l image.now (index_of heads.old next.old state) Insert (key_with low high)
        value.now) }
    ensures moved { result.moved ≡ write_moved result.outcome (length value.now) }
{
    change_in::<Inserting>(
        image, l, heads, next, state, low, high, value, at, words, own,
    )
}

// Replace, in layout l.
pub fn replace_in(
    image: &[u8],
    l: usize,
    heads: &mut [u32],
    next: &mut [u32],
    state: State,
    low: u64,
    high: u64,
    value: &[u8],
    at: &mut [u32; 16],
    words: &mut [u64; 16],
    own: bool,
) -> Change
    requires { Layout l }
    ensures result { change_end result at.new words.new heads.new next.new
        ≡ buffers_after (zipped at.old words.old)
        (write_result_by own l image.now (index_of heads.old next.old state) Replace (key_with low high)
        value.now) }
    ensures moved { result.moved ≡ write_moved result.outcome (length value.now) }
{
    change_in::<Replacing>(
        image, l, heads, next, state, low, high, value, at, words, own,
    )
}

// Insert or replace, in layout l, by the mode.
pub fn write_in(
    image: &[u8],
    l: usize,
    heads: &mut [u32],
    next: &mut [u32],
    state: State,
    mode: Mode,
    low: u64,
    high: u64,
    value: &[u8],
    at: &mut [u32; 16],
    words: &mut [u64; 16],
    own: bool,
) -> Change
    requires { Layout l }
    ensures result { change_end result at.new words.new heads.new next.new
        ≡ buffers_after (zipped at.old words.old)
        (write_result_by own l image.now (index_of heads.old next.old state) mode (key_with low high) value.now) }
    ensures moved { result.moved ≡ write_moved result.outcome (length value.now) }
{
    match mode {
        Mode::Insert => insert_in(
            image, l, heads, next, state, low, high, value, at, words, own,
        ),
        Mode::Replace => replace_in(
            image, l, heads, next, state, low, high, value, at, words, own,
        ),
    }
}

// Insert or replace, in either layout.
pub fn write_in_layout(
    image: &[u8],
    wide: bool,
    heads: &mut [u32],
    next: &mut [u32],
    state: State,
    mode: Mode,
    low: u64,
    high: u64,
    value: &[u8],
    at: &mut [u32; 16],
    words: &mut [u64; 16],
    own: bool,
) -> Change
    ensures result { change_end result at.new words.new heads.new next.new
        ≡ buffers_after (zipped at.old words.old)
        (write_result_by own (layout_number wide) image.now (index_of heads.old next.old state) mode (key_with low high)
        value.now) }
    ensures moved { result.moved ≡ write_moved result.outcome (length value.now) }
{
    write_in(
        image,
        layout_number(wide),
        heads,
        next,
        state,
        mode,
        low,
        high,
        value,
        at,
        words,
        own,
    )
}
