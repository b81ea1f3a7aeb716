// The steps: each reads, and then makes at most one call that writes. A step whose name ends in 2 is layout 2's.
// Each is its plan and `carry_out_plan`, and no call of the step in either layout: its must-fail edits, as
// acknowledge_other_layout, change what the plan alone reads.
ghost use Rattle.std.specs.Prelude.{◌≡◌};
ghost use Rattle.interface.specs.Set.{key_with, zipped, index_of};
ghost use Rattle.book.specs.Steps.{book_end, book_buffers_after, new_result, acknowledge_result, fill_result, withdraw_result};

use book::BookChange;
use book_change_code::change::carry_out_plan;
use book_plan_code::plans::{acknowledge_plan, fill_plan, new_plan, withdraw_plan};
use orderset::State;

// A new order of this quantity: the slot taken and the version, the new state and, lent, the stores to be played; or a
// refusal, which changes nothing.
pub fn new(
    image: &[u8],
    heads: &mut [u32],
    next: &mut [u32],
    state: State,
    key: u64,
    quantity: u64,
    at: &mut [u32; 16],
    words: &mut [u64; 16],
) -> BookChange
    ensures result { book_end result at.new words.new heads.new next.new
        ≡ book_buffers_after (zipped at.old words.old)
        (new_result 1 image.now (index_of heads.old next.old state) key quantity) }
{
    let plan = new_plan(image, false, heads, next, key, 0, quantity);
    carry_out_plan(
        image, false, heads, next, state, key, 0, plan, at, words, false,
    )
}

// The order is acknowledged: as above; or, of an order that was acknowledged before, its slot and version, which
// changes nothing.
pub fn acknowledge(
    image: &[u8],
    heads: &mut [u32],
    next: &mut [u32],
    state: State,
    key: u64,
    at: &mut [u32; 16],
    words: &mut [u64; 16],
) -> BookChange
    ensures result { book_end result at.new words.new heads.new next.new
        ≡ book_buffers_after (zipped at.old words.old)
        (acknowledge_result 1 image.now (index_of heads.old next.old state) key) }
{
    let plan = acknowledge_plan(image, false, heads, next, key, 0);
    carry_out_plan(
        image, false, heads, next, state, key, 0, plan, at, words, false,
    )
}

// This quantity of the order is filled: an order that is filled fully is removed.
pub fn fill(
    image: &[u8],
    heads: &mut [u32],
    next: &mut [u32],
    state: State,
    key: u64,
    quantity: u64,
    at: &mut [u32; 16],
    words: &mut [u64; 16],
) -> BookChange
    ensures result { book_end result at.new words.new heads.new next.new
        ≡ book_buffers_after (zipped at.old words.old)
        (fill_result 1 image.now (index_of heads.old next.old state) key quantity) }
{
    let plan = fill_plan(image, false, heads, next, key, 0, quantity);
    carry_out_plan(
        image, false, heads, next, state, key, 0, plan, at, words, false,
    )
}

// The order is removed, with all that is open.
pub fn withdraw(
    image: &[u8],
    heads: &mut [u32],
    next: &mut [u32],
    state: State,
    key: u64,
    at: &mut [u32; 16],
    words: &mut [u64; 16],
) -> BookChange
    ensures result { book_end result at.new words.new heads.new next.new
        ≡ book_buffers_after (zipped at.old words.old)
        (withdraw_result 1 image.now (index_of heads.old next.old state) key) }
{
    let plan = withdraw_plan(image, false, heads, next, key, 0);
    carry_out_plan(
        image, false, heads, next, state, key, 0, plan, at, words, false,
    )
}

// A new order in layout 2: a key of two words.
pub fn new2(
    image: &[u8],
    heads: &mut [u32],
    next: &mut [u32],
    state: State,
    low: u64,
    high: u64,
    quantity: u64,
    at: &mut [u32; 16],
    words: &mut [u64; 16],
) -> BookChange
    ensures result { book_end result at.new words.new heads.new next.new
        ≡ book_buffers_after (zipped at.old words.old)
        (new_result 2 image.now (index_of heads.old next.old state) (key_with low high) quantity) }
{
    let plan = new_plan(image, true, heads, next, low, high, quantity);
    carry_out_plan(
        image, true, heads, next, state, low, high, plan, at, words, false,
    )
}

// An acknowledge in layout 2.
pub fn acknowledge2(
    image: &[u8],
    heads: &mut [u32],
    next: &mut [u32],
    state: State,
    low: u64,
    high: u64,
    at: &mut [u32; 16],
    words: &mut [u64; 16],
) -> BookChange
    ensures result { book_end result at.new words.new heads.new next.new
        ≡ book_buffers_after (zipped at.old words.old)
        (acknowledge_result 2 image.now (index_of heads.old next.old state) (key_with low high)) }
{
    let plan = acknowledge_plan(image, true, heads, next, low, high);
    carry_out_plan(
        image, true, heads, next, state, low, high, plan, at, words, false,
    )
}

// A fill in layout 2.
pub fn fill2(
    image: &[u8],
    heads: &mut [u32],
    next: &mut [u32],
    state: State,
    low: u64,
    high: u64,
    quantity: u64,
    at: &mut [u32; 16],
    words: &mut [u64; 16],
) -> BookChange
    ensures result { book_end result at.new words.new heads.new next.new
        ≡ book_buffers_after (zipped at.old words.old)
        (fill_result 2 image.now (index_of heads.old next.old state) (key_with low high) quantity) }
{
    let plan = fill_plan(image, true, heads, next, low, high, quantity);
    carry_out_plan(
        image, true, heads, next, state, low, high, plan, at, words, false,
    )
}

// A withdraw in layout 2.
pub fn withdraw2(
    image: &[u8],
    heads: &mut [u32],
    next: &mut [u32],
    state: State,
    low: u64,
    high: u64,
    at: &mut [u32; 16],
    words: &mut [u64; 16],
) -> BookChange
    ensures result { book_end result at.new words.new heads.new next.new
        ≡ book_buffers_after (zipped at.old words.old)
        (withdraw_result 2 image.now (index_of heads.old next.old state) (key_with low high)) }
{
    let plan = withdraw_plan(image, true, heads, next, low, high);
    carry_out_plan(
        image, true, heads, next, state, low, high, plan, at, words, false,
    )
}
