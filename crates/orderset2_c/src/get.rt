// Get in layout 2.
ghost use Rattle.std.specs.Prelude.{◌≡◌};
ghost use Rattle.interface.specs.Set.{key_with, get_result};
ghost use Rattle.exports.specs.Call.{get_left, get_call};

use exports_answer_code::answer::write_answer_got;
use orderset::get2;

// The value of the key fills the front of out; the answer is its length, or absent, each with the slots compared.
#[unsafe(no_mangle)]
pub extern "C" fn orderset2_proved_get(
    image: &[u8],
    heads: &[u32],
    next: &[u32],
    low: u64,
    high: u64,
    out: &mut [u8],
    answer: &mut [u64; 3],
) -> u64
    ensures result { get_left result answer.new out.new
        ≡ get_call (get_result 2 image.now heads.now next.now (key_with low high) out.old)
        answer.old }
{
    let got = get2(image, heads, next, low, high, out);
    write_answer_got(got, answer)
}
