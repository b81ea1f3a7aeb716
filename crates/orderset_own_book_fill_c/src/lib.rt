// A fill in layout 1 for the owner of an index, that is, of an index from recovery and the accepted calls since, for a
// program in C, C++ or Rust. It is no call of document 01; the answer is that of the step without `own`.

#![tactic(auto)]

ghost use Rattle.std.specs.Prelude.{◌≡◌, true};
ghost use Rattle.interface.specs.Set.{zipped, index_of};
ghost use Rattle.book.specs.Steps.{fill_result_by};
ghost use Rattle.exports.specs.State.{state_from};
ghost use Rattle.exports.specs.Call.{change_left};
ghost use Rattle.exports.specs.Book.{book_call};

use exports_book_code::steps::fill_call;

// This quantity of the order is filled; the answer is the slot taken and the version, and the stores are to be made by
// the caller.
#[unsafe(no_mangle)]
pub extern "C" fn orderset_proved_own_book_fill(
    image: &[u8],
    heads: &mut [u32],
    next: &mut [u32],
    state: &mut [u32; 4],
    version: &mut [u64; 1],
    key: u64,
    quantity: u64,
    at: &mut [u32; 16],
    value: &mut [u64; 16],
    answer: &mut [u64; 3],
) -> u32
    ensures result { change_left result answer.new (state_from state.new version.new)
        (zipped at.new value.new) heads.new next.new
        ≡ book_call
        (fill_result_by true 1 image.now
        (index_of heads.old next.old (state_from state.old version.old)) key quantity)
        answer.old (zipped at.old value.old) }
{
    fill_call(
        image, false, heads, next, state, version, key, 0, quantity, at, value, answer, true,
    )
}
