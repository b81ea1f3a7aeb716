// Locate in layout 2.
ghost use Rattle.std.specs.Prelude.{◌≡◌};
ghost use Rattle.interface.specs.Set.{key_with, locate_result};
ghost use Rattle.exports.specs.Call.{locate_left, locate_call};

use exports_answer_code::answer::write_answer_located;
use orderset::locate2;

// The answer is the slot that holds the key and its version, or absent, each with the slots compared.
#[unsafe(no_mangle)]
pub extern "C" fn orderset2_proved_locate(
    image: &[u8],
    heads: &[u32],
    next: &[u32],
    low: u64,
    high: u64,
    answer: &mut [u64; 4],
) -> u64
    ensures result { locate_left result answer.new
        ≡ locate_call (locate_result 2 image.now heads.now next.now (key_with low high)) answer.old }
{
    let located = locate2(image, heads, next, low, high);
    write_answer_located(located, answer)
}
