// Remove in layout 2 for the owner of an index, that is, of an index from recovery and the accepted calls since, for a
// program in C, C++ or Rust. It is no call of document 01; the answer is that of the call without `own`.

#![tactic(auto)]

ghost use Rattle.std.specs.Prelude.{◌≡◌, true};
ghost use Rattle.interface.specs.Set.{zipped, key_with, remove_result_by, index_of};
ghost use Rattle.exports.specs.State.{state_from};
ghost use Rattle.exports.specs.Call.{change_left, change_call};

use exports_write_code::write::remove_call;

// The key is dropped; the answer is the slot taken and the version, or absent, each with the slots compared, and the
// stores are to be made by the caller.
#[unsafe(no_mangle)]
pub extern "C" fn orderset2_proved_own_remove(
    image: &[u8],
    heads: &mut [u32],
    next: &mut [u32],
    state: &mut [u32; 4],
    version: &mut [u64; 1],
    low: u64,
    high: u64,
    at: &mut [u32; 16],
    value: &mut [u64; 16],
    answer: &mut [u64; 4],
) -> u64
    ensures result { change_left result answer.new (state_from state.new version.new)
        (zipped at.new value.new) heads.new next.new
        ≡ change_call
        (remove_result_by true 2 image.now
        (index_of heads.old next.old (state_from state.old version.old)) (key_with low high))
        answer.old (zipped at.old value.old) }
{
    remove_call(
        image, true, heads, next, state, version, low, high, at, value, answer, true,
    )
}
