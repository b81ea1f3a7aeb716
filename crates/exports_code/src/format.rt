// What format gives back, in lent numbers.
ghost use Rattle.std.specs.Prelude.{◌≡◌, List, ℕ};
ghost use Rattle.interface.specs.Set.{format_end};
ghost use Rattle.exports.specs.Call.{format_left, format_call};

use orderset::Formatted;

// What a format gives back goes into the lent numbers. Returned is 0 or the refusal.
pub fn write_answer_formatted(formatted: Formatted, answer: &mut [u64; 2]) -> u32
    ensures result { (bytes : List ℕ) → format_left result answer.new bytes ≡ format_call (format_end formatted bytes) answer.old }
{
    match formatted {
        Formatted::Refused(number) => number,
        Formatted::Slots(n) => {
            *answer = [1, n as u64];
            0
        }
    }
}
