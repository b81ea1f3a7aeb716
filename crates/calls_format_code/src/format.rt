// Format: a lent slice of bytes becomes an empty image.
ghost use Rattle.std.specs.Prelude.{◌≡◌};
ghost use Rattle.calls.specs.Format.{format_fault, format_end, format_result};

use calls::Formatted;
use layout_code::header::slot_count;
use words_code::write_word;

// 1 by the number of slots, or 32 by the layout, else 0.
fn format_fault(l: u64, n: usize) -> u32
    ensures { result ≡ format_fault l n }
{
    if n == 0 {
        return 1;
    }
    if l < 1 {
        return 32;
    }
    if 2 < l {
        return 32;
    }
    0
}

// The bytes become an empty image of layout l: the number of its slots, or refusal 1 or 32, which changes no byte.
pub fn format(image: &mut [u8], l: u64) -> Formatted
    ensures result { format_end result image.new ≡ format_result l image.old }
{
    let n = slot_count(image.len());
    let fault = format_fault(l, n);
    if fault != 0 {
        return Formatted::Refused(fault);
    }
    image.fill(0);
    write_word(image, 0, n as u64);
    write_word(image, 1, l);
    Formatted::Slots(n as u32)
}
