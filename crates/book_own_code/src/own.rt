// The steps for the owner of an index, that is, of an index from recovery and the accepted calls and steps since: each
// is the step of its name by a call for the owner. Such calls are no calls of document 01, whose refusals hold for any
// index. A step whose name ends in 2 is layout 2's. Each is its plan and `carry_out_plan`, and no call of the step in
// either layout: its must-fail edits, as own_acknowledge_words_swapped, change what the plan alone reads.
ghost use Rattle.std.specs.Prelude.{◌≡◌, true};
ghost use Rattle.interface.specs.Set.{key_with, zipped, index_of};
ghost use Rattle.book.specs.Steps.{book_end, book_buffers_after, new_result_by, acknowledge_result_by, fill_result_by, withdraw_result_by};

use book::BookChange;
use book_change_code::change::carry_out_plan;
use book_plan_code::plans::{acknowledge_plan, fill_plan, new_plan, withdraw_plan};
use orderset::State;

// A new order of this quantity.
pub fn own_new(
    image: &[u8],
    heads: &mut [u32],
    next: &mut [u32],
    state: State,
    key: u64,
    quantity: u64,
    at: &mut [u32; 16],
    words: &mut [u64; 16],
) -> BookChange
    ensures result { book_end result at.new words.new heads.new next.new
        ≡ book_buffers_after (zipped at.old words.old)
        (new_result_by true 1 image.now (index_of heads.old next.old state) key quantity) }
{
    let plan = new_plan(image, false, heads, next, key, 0, quantity);
    carry_out_plan(
        image, false, heads, next, state, key, 0, plan, at, words, true,
    )
}

// The order is acknowledged.
pub fn own_acknowledge(
    image: &[u8],
    heads: &mut [u32],
    next: &mut [u32],
    state: State,
    key: u64,
    at: &mut [u32; 16],
    words: &mut [u64; 16],
) -> BookChange
    ensures result { book_end result at.new words.new heads.new next.new
        ≡ book_buffers_after (zipped at.old words.old)
        (acknowledge_result_by true 1 image.now (index_of heads.old next.old state) key) }
{
    let plan = acknowledge_plan(image, false, heads, next, key, 0);
    carry_out_plan(
        image, false, heads, next, state, key, 0, plan, at, words, true,
    )
}

// This quantity of the order is filled.
pub fn own_fill(
    image: &[u8],
    heads: &mut [u32],
    next: &mut [u32],
    state: State,
    key: u64,
    quantity: u64,
    at: &mut [u32; 16],
    words: &mut [u64; 16],
) -> BookChange
    ensures result { book_end result at.new words.new heads.new next.new
        ≡ book_buffers_after (zipped at.old words.old)
        (fill_result_by true 1 image.now (index_of heads.old next.old state) key quantity) }
{
    let plan = fill_plan(image, false, heads, next, key, 0, quantity);
    carry_out_plan(
        image, false, heads, next, state, key, 0, plan, at, words, true,
    )
}

// The order is removed, with all that is open.
pub fn own_withdraw(
    image: &[u8],
    heads: &mut [u32],
    next: &mut [u32],
    state: State,
    key: u64,
    at: &mut [u32; 16],
    words: &mut [u64; 16],
) -> BookChange
    ensures result { book_end result at.new words.new heads.new next.new
        ≡ book_buffers_after (zipped at.old words.old)
        (withdraw_result_by true 1 image.now (index_of heads.old next.old state) key) }
{
    let plan = withdraw_plan(image, false, heads, next, key, 0);
    carry_out_plan(
        image, false, heads, next, state, key, 0, plan, at, words, true,
    )
}

// A new order in layout 2.
pub fn own_new2(
    image: &[u8],
    heads: &mut [u32],
    next: &mut [u32],
    state: State,
    low: u64,
    high: u64,
    quantity: u64,
    at: &mut [u32; 16],
    words: &mut [u64; 16],
) -> BookChange
    ensures result { book_end result at.new words.new heads.new next.new
        ≡ book_buffers_after (zipped at.old words.old)
        (new_result_by true 2 image.now (index_of heads.old next.old state) (key_with low high) quantity) }
{
    let plan = new_plan(image, true, heads, next, low, high, quantity);
    carry_out_plan(
        image, true, heads, next, state, low, high, plan, at, words, true,
    )
}

// An acknowledge in layout 2.
pub fn own_acknowledge2(
    image: &[u8],
    heads: &mut [u32],
    next: &mut [u32],
    state: State,
    low: u64,
    high: u64,
    at: &mut [u32; 16],
    words: &mut [u64; 16],
) -> BookChange
    ensures result { book_end result at.new words.new heads.new next.new
        ≡ book_buffers_after (zipped at.old words.old)
        (acknowledge_result_by true 2 image.now (index_of heads.old next.old state) (key_with low high)) }
{
    let plan = acknowledge_plan(image, true, heads, next, low, high);
    carry_out_plan(
        image, true, heads, next, state, low, high, plan, at, words, true,
    )
}

// A fill in layout 2.
pub fn own_fill2(
    image: &[u8],
    heads: &mut [u32],
    next: &mut [u32],
    state: State,
    low: u64,
    high: u64,
    quantity: u64,
    at: &mut [u32; 16],
    words: &mut [u64; 16],
) -> BookChange
    ensures result { book_end result at.new words.new heads.new next.new
        ≡ book_buffers_after (zipped at.old words.old)
        (fill_result_by true 2 image.now (index_of heads.old next.old state) (key_with low high) quantity) }
{
    let plan = fill_plan(image, true, heads, next, low, high, quantity);
    carry_out_plan(
        image, true, heads, next, state, low, high, plan, at, words, true,
    )
}

// A withdraw in layout 2.
pub fn own_withdraw2(
    image: &[u8],
    heads: &mut [u32],
    next: &mut [u32],
    state: State,
    low: u64,
    high: u64,
    at: &mut [u32; 16],
    words: &mut [u64; 16],
) -> BookChange
    ensures result { book_end result at.new words.new heads.new next.new
        ≡ book_buffers_after (zipped at.old words.old)
        (withdraw_result_by true 2 image.now (index_of heads.old next.old state) (key_with low high)) }
{
    let plan = withdraw_plan(image, true, heads, next, low, high);
    carry_out_plan(
        image, true, heads, next, state, low, high, plan, at, words, true,
    )
}
