// Count the slots in layout 2.
ghost use Rattle.std.specs.Prelude.{◌≡◌};
ghost use Rattle.interface.specs.Set.{count_result};
ghost use Rattle.exports.specs.Count.{count_left, count_call};

use exports_answer_code::count::write_answer_counted;
use orderset::count_slots2;

// How many slots of the image are live, hidden puts, remove records, void, broken and empty. Heads and next are
// rebuilt, as recover does. Returned is 0, or recovery's refusal + 2^32 × the slot that it names.
#[unsafe(no_mangle)]
pub extern "C" fn orderset2_proved_count_slots(
    image: &[u8],
    heads: &mut [u32],
    next: &mut [u32],
    counts: &mut [u64; 6],
) -> u64
    ensures result { count_left result counts.new heads.new next.new
        ≡ count_call (count_result 2 image.now heads.old next.old) counts.old }
{
    let answer = count_slots2(image, heads, next);
    write_answer_counted(answer, counts)
}
