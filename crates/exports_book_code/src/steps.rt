// The steps of the order book with lent numbers: with `wide` in layout 2, with `own` for the owner of the index.
ghost use Rattle.std.specs.Prelude.{◌≡◌};
ghost use Rattle.interface.specs.Set.{layout_number, key_with, zipped, index_of};
ghost use Rattle.book.specs.Steps.{new_result_by, acknowledge_result_by, fill_result_by, withdraw_result_by};
ghost use Rattle.exports.specs.State.{state_from};
ghost use Rattle.exports.specs.Call.{change_left};
ghost use Rattle.exports.specs.Book.{book_call};

use book_change_code::layouts::{
    acknowledge_in_layout, fill_in_layout, new_in_layout, withdraw_in_layout,
};
use exports_answer_code::answer::write_answer_step;
use exports_code::state::state_from;

// A new order of this quantity; the answer is the slot taken and the version.
pub fn new_call(
    image: &[u8],
    wide: bool,
    heads: &mut [u32],
    next: &mut [u32],
    state: &mut [u32; 4],
    version: &mut [u64; 1],
    low: u64,
    high: u64,
    quantity: u64,
    at: &mut [u32; 16],
    value: &mut [u64; 16],
    answer: &mut [u64; 3],
    own: bool,
) -> u32
    ensures result { change_left result answer.new (state_from state.new version.new)
        (zipped at.new value.new) heads.new next.new
        ≡ book_call
        (new_result_by own (layout_number wide) image.now
        (index_of heads.old next.old (state_from state.old version.old)) (key_with low high) quantity)
        answer.old (zipped at.old value.old) }
{
    let before = state_from(state, version);
    let change = new_in_layout(
        image, wide, heads, next, before, low, high, quantity, at, value, own,
    );
    write_answer_step(change, state, version, answer)
}

// The order is acknowledged; the answer is as above, or, of an order that was acknowledged before, its slot and
// version.
pub fn acknowledge_call(
    image: &[u8],
    wide: bool,
    heads: &mut [u32],
    next: &mut [u32],
    state: &mut [u32; 4],
    version: &mut [u64; 1],
    low: u64,
    high: u64,
    at: &mut [u32; 16],
    value: &mut [u64; 16],
    answer: &mut [u64; 3],
    own: bool,
) -> u32
    ensures result { change_left result answer.new (state_from state.new version.new)
        (zipped at.new value.new) heads.new next.new
        ≡ book_call
        (acknowledge_result_by own (layout_number wide) image.now
        (index_of heads.old next.old (state_from state.old version.old)) (key_with low high))
        answer.old (zipped at.old value.old) }
{
    let before = state_from(state, version);
    let change = acknowledge_in_layout(image, wide, heads, next, before, low, high, at, value, own);
    write_answer_step(change, state, version, answer)
}

// This quantity of the order is filled; the answer is the slot taken and the version.
pub fn fill_call(
    image: &[u8],
    wide: bool,
    heads: &mut [u32],
    next: &mut [u32],
    state: &mut [u32; 4],
    version: &mut [u64; 1],
    low: u64,
    high: u64,
    quantity: u64,
    at: &mut [u32; 16],
    value: &mut [u64; 16],
    answer: &mut [u64; 3],
    own: bool,
) -> u32
    ensures result { change_left result answer.new (state_from state.new version.new)
        (zipped at.new value.new) heads.new next.new
        ≡ book_call
        (fill_result_by own (layout_number wide) image.now
        (index_of heads.old next.old (state_from state.old version.old)) (key_with low high) quantity)
        answer.old (zipped at.old value.old) }
{
    let before = state_from(state, version);
    let change = fill_in_layout(
        image, wide, heads, next, before, low, high, quantity, at, value, own,
    );
    write_answer_step(change, state, version, answer)
}

// The order is removed, with all that is open; the answer is as above.
pub fn withdraw_call(
    image: &[u8],
    wide: bool,
    heads: &mut [u32],
    next: &mut [u32],
    state: &mut [u32; 4],
    version: &mut [u64; 1],
    low: u64,
    high: u64,
    at: &mut [u32; 16],
    value: &mut [u64; 16],
    answer: &mut [u64; 3],
    own: bool,
) -> u32
    ensures result { change_left result answer.new (state_from state.new version.new)
        (zipped at.new value.new) heads.new next.new
        ≡ book_call
        (withdraw_result_by own (layout_number wide) image.now
        (index_of heads.old next.old (state_from state.old version.old)) (key_with low high))
        answer.old (zipped at.old value.old) }
{
    let before = state_from(state, version);
    let change = withdraw_in_layout(image, wide, heads, next, before, low, high, at, value, own);
    write_answer_step(change, state, version, answer)
}
