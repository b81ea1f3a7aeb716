// An acknowledge in layout 2, for a program in C, C++ or Rust.

#![tactic(auto)]

ghost use Rattle.std.specs.Prelude.{◌≡◌};
ghost use Rattle.interface.specs.Set.{zipped, key_with, index_of};
ghost use Rattle.book.specs.Steps.{acknowledge_result};
ghost use Rattle.exports.specs.State.{state_from};
ghost use Rattle.exports.specs.Call.{change_left};
ghost use Rattle.exports.specs.Book.{book_call};

use exports_book_code::steps::acknowledge_call;

// The order is acknowledged; the answer is the slot taken and the version, and the stores are to be made by the caller;
// or, of an order that was acknowledged before, its slot and version.
#[unsafe(no_mangle)]
pub extern "C" fn orderset2_proved_book_acknowledge(
    image: &[u8],
    heads: &mut [u32],
    next: &mut [u32],
    state: &mut [u32; 4],
    version: &mut [u64; 1],
    low: u64,
    high: u64,
    at: &mut [u32; 16],
    value: &mut [u64; 16],
    answer: &mut [u64; 3],
) -> u32
    ensures result { change_left result answer.new (state_from state.new version.new)
        (zipped at.new value.new) heads.new next.new
        ≡ book_call
        (acknowledge_result 2 image.now
        (index_of heads.old next.old (state_from state.old version.old)) (key_with low high))
        answer.old (zipped at.old value.old) }
{
    acknowledge_call(
        image, true, heads, next, state, version, low, high, at, value, answer, false,
    )
}
