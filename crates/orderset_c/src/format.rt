// Format.
ghost use Rattle.std.specs.Prelude.{◌≡◌};
ghost use Rattle.interface.specs.Set.{format_result};
ghost use Rattle.exports.specs.Call.{format_left, format_call};

use exports_code::format::write_answer_formatted;
use orderset::format;

// The bytes become an empty image of this layout; the answer is the number of its slots.
#[unsafe(no_mangle)]
pub extern "C" fn orderset_proved_format(
    image: &mut [u8],
    layout: u64,
    answer: &mut [u64; 2],
) -> u32
    ensures result { format_left result answer.new image.new
        ≡ format_call (format_result layout image.old) answer.old }
{
    let formatted = format(image, layout);
    write_answer_formatted(formatted, answer)
}
