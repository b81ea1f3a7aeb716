// Insert, replace and remove with lent numbers: with `wide` in layout 2, with `own` for the owner of the index.
ghost use Rattle.std.specs.Prelude.{◌≡◌};
ghost use Rattle.interface.specs.Set.{layout_number, key_with, zipped, write_result_by, remove_result_by, index_of};
ghost use Rattle.exports.specs.State.{state_from};
ghost use Rattle.exports.specs.Call.{change_left, change_call};

use exports_answer_code::answer::write_answer;
use exports_code::state::state_from;
use orderset::Mode;
use orderset::layouts::{remove_in_layout, write_in_layout};

// The key gets the value; the answer is the slot taken, the version and the slots compared.
pub fn write_call(
    image: &[u8],
    wide: bool,
    heads: &mut [u32],
    next: &mut [u32],
    state: &mut [u32; 4],
    version: &mut [u64; 1],
    mode: Mode,
    low: u64,
    high: u64,
    bytes: &[u8],
    at: &mut [u32; 16],
    value: &mut [u64; 16],
    answer: &mut [u64; 4],
    own: bool,
) -> u64
    ensures result { change_left result answer.new (state_from state.new version.new)
        (zipped at.new value.new) heads.new next.new
        ≡ change_call
        (write_result_by own (layout_number wide) image.now
        (index_of heads.old next.old (state_from state.old version.old)) mode (key_with low high)
        bytes.now)
        answer.old (zipped at.old value.old) }
{
    let before = state_from(state, version);
    let change = write_in_layout(
        image, wide, heads, next, before, mode, low, high, bytes, at, value, own,
    );
    write_answer(change, state, version, answer)
}

// The key is dropped; the answer is the slot taken and the version, or absent, each with the slots compared.
pub fn remove_call(
    image: &[u8],
    wide: bool,
    heads: &mut [u32],
    next: &mut [u32],
    state: &mut [u32; 4],
    version: &mut [u64; 1],
    low: u64,
    high: u64,
    at: &mut [u32; 16],
    value: &mut [u64; 16],
    answer: &mut [u64; 4],
    own: bool,
) -> u64
    ensures result { change_left result answer.new (state_from state.new version.new)
        (zipped at.new value.new) heads.new next.new
        ≡ change_call
        (remove_result_by own (layout_number wide) image.now
        (index_of heads.old next.old (state_from state.old version.old)) (key_with low high))
        answer.old (zipped at.old value.old) }
{
    let before = state_from(state, version);
    let change = remove_in_layout(image, wide, heads, next, before, low, high, at, value, own);
    write_answer(change, state, version, answer)
}
