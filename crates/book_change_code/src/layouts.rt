// The steps in either layout: each reads, and then makes at most one call that writes. With `own` that is a call for the
// owner of the index. All that they share is `carry_out_plan`: a function that took the plan as a closure would name the
// same ten arguments again in each step.
ghost use Rattle.std.specs.Prelude.{◌≡◌};
ghost use Rattle.interface.specs.Set.{layout_number, key_with, zipped, index_of};
ghost use Rattle.book.specs.Steps.{book_end, book_buffers_after, new_result_by, acknowledge_result_by, fill_result_by, withdraw_result_by};

use crate::change::carry_out_plan;
use book::BookChange;
use book_plan_code::plans::{acknowledge_plan, fill_plan, new_plan, withdraw_plan};
use orderset::State;

// A new order of this quantity.
pub fn new_in_layout(
    image: &[u8],
    wide: bool,
    heads: &mut [u32],
    next: &mut [u32],
    state: State,
    low: u64,
    high: u64,
    quantity: u64,
    at: &mut [u32; 16],
    words: &mut [u64; 16],
    own: bool,
) -> BookChange
    ensures result { book_end result at.new words.new heads.new next.new
        ≡ book_buffers_after (zipped at.old words.old)
        (new_result_by own (layout_number wide) image.now (index_of heads.old next.old state) (key_with low high) quantity) }
{
    let plan = new_plan(image, wide, heads, next, low, high, quantity);
    carry_out_plan(
        image, wide, heads, next, state, low, high, plan, at, words, own,
    )
}

// The order is acknowledged.
pub fn acknowledge_in_layout(
    image: &[u8],
    wide: bool,
    heads: &mut [u32],
    next: &mut [u32],
    state: State,
    low: u64,
    high: u64,
    at: &mut [u32; 16],
    words: &mut [u64; 16],
    own: bool,
) -> BookChange
    ensures result { book_end result at.new words.new heads.new next.new
        ≡ book_buffers_after (zipped at.old words.old)
        (acknowledge_result_by own (layout_number wide) image.now (index_of heads.old next.old state) (key_with low high)) }
{
    let plan = acknowledge_plan(image, wide, heads, next, low, high);
    carry_out_plan(
        image, wide, heads, next, state, low, high, plan, at, words, own,
    )
}

// This quantity of the order is filled.
pub fn fill_in_layout(
    image: &[u8],
    wide: bool,
    heads: &mut [u32],
    next: &mut [u32],
    state: State,
    low: u64,
    high: u64,
    quantity: u64,
    at: &mut [u32; 16],
    words: &mut [u64; 16],
    own: bool,
) -> BookChange
    ensures result { book_end result at.new words.new heads.new next.new
        ≡ book_buffers_after (zipped at.old words.old)
        (fill_result_by own (layout_number wide) image.now (index_of heads.old next.old state) (key_with low high) quantity) }
{
    let plan = fill_plan(image, wide, heads, next, low, high, quantity);
    carry_out_plan(
        image, wide, heads, next, state, low, high, plan, at, words, own,
    )
}

// The order is removed, with all that is open.
pub fn withdraw_in_layout(
    image: &[u8],
    wide: bool,
    heads: &mut [u32],
    next: &mut [u32],
    state: State,
    low: u64,
    high: u64,
    at: &mut [u32; 16],
    words: &mut [u64; 16],
    own: bool,
) -> BookChange
    ensures result { book_end result at.new words.new heads.new next.new
        ≡ book_buffers_after (zipped at.old words.old)
        (withdraw_result_by own (layout_number wide) image.now (index_of heads.old next.old state) (key_with low high)) }
{
    let plan = withdraw_plan(image, wide, heads, next, low, high);
    carry_out_plan(
        image, wide, heads, next, state, low, high, plan, at, words, own,
    )
}
