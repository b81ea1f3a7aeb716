// Basket: up to eight keys are changed, all or none. `l` is the layout.
ghost use Rattle.std.specs.Prelude.{◌≡◌, length};
ghost use Rattle.layout.specs.Layouts.{layout_number};
ghost use Rattle.layout.specs.Record.{Layout};
ghost use Rattle.layout.specs.Size.{slots_in};
ghost use Rattle.index.specs.Index.{index_of};
ghost use Rattle.allocation.specs.Allocation.{allocation_chosen_by};
ghost use Rattle.calls.specs.Basket.{basket_done, basket_result, basket_result_by};
ghost use Rattle.calls.specs.BasketItems.{changes_of};
ghost use Rattle.calls.specs.BasketBuffers.{basket_end, buffers_after_lists};
ghost use Rattle.calls.specs.inner.Basket.{BasketReady};

use calls::{BasketAnswer, BasketItem, BasketOutcome, Plan};
use calls_basket_plan_code::plan::plan;
use calls_basket_plan_code::totals::totals_of;
use calls_basket_write_code::links::change_index;
use calls_basket_write_code::records::fill_basket_stores;
use index::State;
use layout_code::header::slot_count;
use layout_fields_code::fields::layout_number;

// The basket is written by what was read: the slots of the old records of its keys, the slots that it takes and the
// slots before them.
fn store_basket(
    image: &[u8],
    l: usize,
    heads: &mut [u32],
    next: &mut [u32],
    state: State,
    count: usize,
    items: [BasketItem; 8],
    values: [u8; 640],
    olds: [u32; 8],
    slots: [u32; 8],
    prevs: [u32; 8],
    at: &mut [u32],
    words: &mut [u64],
    own: bool,
) -> BasketAnswer
    requires { Layout l
        × BasketReady own l image.now heads.old next.old (slots_in image.now) state count items (length at.old) (length words.old)
        (record { fault = 0; olds = olds; slots = slots; prevs = prevs }) }
    ensures { basket_end count result at.new words.new heads.new next.new
        ≡ buffers_after_lists at.old words.old
        (basket_done l image.now (index_of heads.old next.old state) (changes_of l count items values)
        (allocation_chosen_by own l image.now next.old (slots_in image.now) state.first state.newest count)) }
{
    let n = slot_count(image.len());
    let totals = totals_of(items, count);
    let rest = change_index(heads, next, n, state, count, items, olds, slots, prevs);
    fill_basket_stores(
        image,
        l,
        state.version,
        count,
        items,
        values,
        slots,
        at,
        words,
    );
    BasketAnswer {
        outcome: BasketOutcome::Stored {
            version: state.version,
        },
        slots,
        state: State {
            live: state.live + totals.inserts - totals.removes,
            version: state.version + 1,
            newest: slots[0],
            ..rest
        },
    }
}

// A basket, in layout l. The stores are lent: at is their word numbers, words their values.
pub fn basket_in(
    image: &[u8],
    l: usize,
    heads: &mut [u32],
    next: &mut [u32],
    state: State,
    count: usize,
    items: [BasketItem; 8],
    values: [u8; 640],
    at: &mut [u32],
    words: &mut [u64],
    own: bool,
) -> BasketAnswer
    requires { Layout l }
    ensures result { basket_end count result at.new words.new heads.new next.new
        ≡ buffers_after_lists at.old words.old
        (basket_result_by own l image.now (index_of heads.old next.old state) (changes_of l count items values)
        (length at.old) (length words.old)) }
{
    let p = plan(
        image,
        l,
        heads,
        next,
        state,
        count,
        items,
        at.len(),
        words.len(),
        own,
    );
    if p.fault != 0 {
        return BasketAnswer {
            outcome: BasketOutcome::Refused(p.fault),
            slots: [0; 8],
            state,
        };
    }
    let Plan {
        olds,
        slots,
        prevs,
        ..
    } = p;
    store_basket(
        image, l, heads, next, state, count, items, values, olds, slots, prevs, at, words, own,
    )
}

// A basket, in either layout.
pub fn basket_in_layout(
    image: &[u8],
    wide: bool,
    heads: &mut [u32],
    next: &mut [u32],
    state: State,
    count: usize,
    items: [BasketItem; 8],
    values: [u8; 640],
    at: &mut [u32],
    words: &mut [u64],
    own: bool,
) -> BasketAnswer
    ensures result { basket_end count result at.new words.new heads.new next.new
        ≡ buffers_after_lists at.old words.old
        (basket_result_by own (layout_number wide) image.now (index_of heads.old next.old state)
        (changes_of (layout_number wide) count items values) (length at.old) (length words.old)) }
{
    basket_in(
        image,
        layout_number(wide),
        heads,
        next,
        state,
        count,
        items,
        values,
        at,
        words,
        own,
    )
}

// Up to eight keys are inserted, replaced or removed; item i's value is the first bytes of values from byte 80 × i on.
// The version, the slots taken, the new state and, lent, sixteen stores for each key to be played; or a refusal, which
// changes nothing.
pub fn basket(
    image: &[u8],
    heads: &mut [u32],
    next: &mut [u32],
    state: State,
    count: usize,
    items: [BasketItem; 8],
    values: [u8; 640],
    at: &mut [u32],
    words: &mut [u64],
) -> BasketAnswer
    ensures result { basket_end count result at.new words.new heads.new next.new
        ≡ buffers_after_lists at.old words.old
        (basket_result 1 image.now (index_of heads.old next.old state) (changes_of 1 count items values)
        (length at.old) (length words.old)) }
{
    basket_in(
        image, 1, heads, next, state, count, items, values, at, words, false,
    )
}

// A basket in layout 2: keys of two words.
pub fn basket2(
    image: &[u8],
    heads: &mut [u32],
    next: &mut [u32],
    state: State,
    count: usize,
    items: [BasketItem; 8],
    values: [u8; 640],
    at: &mut [u32],
    words: &mut [u64],
) -> BasketAnswer
    ensures result { basket_end count result at.new words.new heads.new next.new
        ≡ buffers_after_lists at.old words.old
        (basket_result 2 image.now (index_of heads.old next.old state) (changes_of 2 count items values)
        (length at.old) (length words.old)) }
{
    basket_in(
        image, 2, heads, next, state, count, items, values, at, words, false,
    )
}
