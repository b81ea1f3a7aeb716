// The counts of the slots, in lent numbers.
ghost use Rattle.std.specs.Prelude.{◌≡◌, List, ℕ};
ghost use Rattle.interface.specs.Set.{count_end};
ghost use Rattle.exports.specs.Count.{count_left, count_call};

use exports_code::refusal::refused_with;
use orderset::CountAnswer;

// What a count of the slots gives back goes into the lent numbers. Returned is 0, or recovery's refusal + 2^32 × the
// slot that it names.
pub fn write_answer_counted(answer: CountAnswer, counts: &mut [u64; 6]) -> u64
    ensures result { (heads next : List ℕ) → count_left result counts.new heads next ≡ count_call (count_end answer heads next) counts.old }
{
    match answer {
        CountAnswer::Refused { number, slot } => refused_with(number, slot),
        CountAnswer::Counted(c) => {
            *counts = [
                c.live as u64,
                c.hidden as u64,
                c.removes as u64,
                c.void as u64,
                c.broken as u64,
                c.empty as u64,
            ];
            0
        }
    }
}
