// A basket in layout 2, for a program in C, C++ or Rust.

#![tactic(auto)]

ghost use Rattle.std.specs.Prelude.{◌≡◌, length};
ghost use Rattle.interface.specs.Set.{buffers_after_lists, changes_of, basket_result, index_of};
ghost use Rattle.exports.specs.State.{state_from};
ghost use Rattle.exports.specs.Basket.{keys_asked, given_items, basket_call_left, basket_call};

use exports_basket_code::basket::basket_call;

// The first count items are carried out together: kind 1 inserts, 2 replaces and 3 removes the key with these two
// words; item i's value is the first bytes of values from byte 80 × i on. The answer is the version and the slots
// taken, and the stores, sixteen for each key, are to be made by the caller.
#[unsafe(no_mangle)]
pub extern "C" fn orderset2_proved_basket(
    image: &[u8],
    heads: &mut [u32],
    next: &mut [u32],
    state: &mut [u32; 4],
    version: &mut [u64; 1],
    count: usize,
    kinds: &[u32; 8],
    lows: &[u64; 8],
    highs: &[u64; 8],
    lengths: &[usize; 8],
    values: &[u8; 640],
    at: &mut [u32],
    value: &mut [u64],
    answer: &mut [u64; 9],
) -> u32
    ensures result { basket_call_left result answer.new (state_from state.new version.new) at.new
        value.new heads.new next.new
        ≡ basket_call
        (buffers_after_lists at.old value.old
        (basket_result 2 image.now (index_of heads.old next.old (state_from state.old version.old))
        (changes_of 2 (keys_asked count kinds.now)
        (given_items kinds.now lows.now highs.now lengths.now) values.now)
        (length at.old) (length value.old)))
        answer.old }
{
    basket_call(
        image, true, heads, next, state, version, count, kinds, lows, highs, lengths, values, at,
        value, answer, false,
    )
}
