// Insert in layout 2, for a program in C, C++ or Rust.

#![tactic(auto)]

ghost use Rattle.std.specs.Prelude.{◌≡◌};
ghost use Rattle.interface.specs.Set.{zipped, Insert, key_with, write_result, index_of};
ghost use Rattle.exports.specs.State.{state_from};
ghost use Rattle.exports.specs.Call.{change_left, change_call};

use exports_write_code::write::write_call;
use orderset::Mode;

// A key that is not held gets the value; the answer is the slot taken, the version and the slots compared, and the
// stores are to be made by the caller.
#[unsafe(no_mangle)]
pub extern "C" fn orderset2_proved_insert(
    image: &[u8],
    heads: &mut [u32],
    next: &mut [u32],
    state: &mut [u32; 4],
    version: &mut [u64; 1],
    low: u64,
    high: u64,
    bytes: &[u8],
    at: &mut [u32; 16],
    value: &mut [u64; 16],
    answer: &mut [u64; 4],
) -> u64
    ensures result { change_left result answer.new (state_from state.new version.new)
        (zipped at.new value.new) heads.new next.new
        ≡ change_call
        (write_result 2 image.now (index_of heads.old next.old (state_from state.old version.old))
        Insert (key_with low high) bytes.now)
        answer.old (zipped at.old value.old) }
{
    write_call(
        image,
        true,
        heads,
        next,
        state,
        version,
        Mode::Insert,
        low,
        high,
        bytes,
        at,
        value,
        answer,
        false,
    )
}
