// Remove in layout 1, for a program in C, C++ or Rust.

#![tactic(auto)]

ghost use Rattle.std.specs.Prelude.{◌≡◌};
ghost use Rattle.interface.specs.Set.{zipped, remove_result, index_of};
ghost use Rattle.exports.specs.State.{state_from};
ghost use Rattle.exports.specs.Call.{change_left, change_call};

use exports_write_code::write::remove_call;

// The key is dropped; the answer is the slot taken and the version, or absent, each with the slots compared, and the
// stores are to be made by the caller.
#[unsafe(no_mangle)]
pub extern "C" fn orderset_proved_remove(
    image: &[u8],
    heads: &mut [u32],
    next: &mut [u32],
    state: &mut [u32; 4],
    version: &mut [u64; 1],
    key: u64,
    at: &mut [u32; 16],
    value: &mut [u64; 16],
    answer: &mut [u64; 4],
) -> u64
    ensures result { change_left result answer.new (state_from state.new version.new)
        (zipped at.new value.new) heads.new next.new
        ≡ change_call
        (remove_result 1 image.now (index_of heads.old next.old (state_from state.old version.old)) key)
        answer.old (zipped at.old value.old) }
{
    remove_call(
        image, false, heads, next, state, version, key, 0, at, value, answer, false,
    )
}
