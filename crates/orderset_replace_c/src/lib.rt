// Replace in layout 1, for a program in C, C++ or Rust.

#![tactic(auto)]

ghost use Rattle.std.specs.Prelude.{◌≡◌};
ghost use Rattle.interface.specs.Set.{zipped, Replace, write_result, index_of};
ghost use Rattle.exports.specs.State.{state_from};
ghost use Rattle.exports.specs.Call.{change_left, change_call};

use exports_write_code::write::write_call;
use orderset::Mode;

// A key that is held gets the value; the answer is the slot taken, the version and the slots compared, and the stores
// are to be made by the caller.
#[unsafe(no_mangle)]
pub extern "C" fn orderset_proved_replace(
    image: &[u8],
    heads: &mut [u32],
    next: &mut [u32],
    state: &mut [u32; 4],
    version: &mut [u64; 1],
    key: u64,
    bytes: &[u8],
    at: &mut [u32; 16],
    value: &mut [u64; 16],
    answer: &mut [u64; 4],
) -> u64
    ensures result { change_left result answer.new (state_from state.new version.new)
        (zipped at.new value.new) heads.new next.new
        ≡ change_call
        (write_result 1 image.now (index_of heads.old next.old (state_from state.old version.old))
        Replace key bytes.now)
        answer.old (zipped at.old value.old) }
{
    write_call(
        image,
        false,
        heads,
        next,
        state,
        version,
        Mode::Replace,
        key,
        0,
        bytes,
        at,
        value,
        answer,
        false,
    )
}
