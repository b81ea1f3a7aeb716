// Recover in layout 2.
ghost use Rattle.std.specs.Prelude.{◌≡◌};
ghost use Rattle.interface.specs.Set.{recover_result};
ghost use Rattle.exports.specs.State.{state_from};
ghost use Rattle.exports.specs.Invalidation.{invalidations_from};
ghost use Rattle.exports.specs.Call.{recover_left, recover_call};

use exports_answer_code::recover::write_answer_recovered;
use orderset::recover2;

// The index of the image is rebuilt; the answer is the state beside it, with the invalidating stores, which are to be
// made by the caller. Returned is 0, or the refusal + 2^32 × the slot that it names.
#[unsafe(no_mangle)]
pub extern "C" fn orderset2_proved_recover(
    image: &[u8],
    heads: &mut [u32],
    next: &mut [u32],
    state: &mut [u32; 4],
    version: &mut [u64; 1],
    count: &mut [u32; 1],
    at: &mut [u32; 8],
    value: &mut [u64; 8],
) -> u64
    ensures result { recover_left result (state_from state.new version.new)
        (invalidations_from count.new at.new value.new) heads.new next.new
        ≡ recover_call (recover_result 2 image.now heads.old next.old)
        (state_from state.old version.old) (invalidations_from count.old at.old value.old) }
{
    let answer = recover2(image, heads, next);
    write_answer_recovered(answer, state, version, count, at, value)
}
