// The size of an image at the start of the input.
ghost use Rattle.std.specs.Prelude.{◌≡◌, ◌+◌};
ghost use Rattle.report_text.specs.Report.{outside, image_size};
ghost use Rattle.report_text.specs.Blocks.{readable};

use words_code::read_word;

// Is the word outside 2 to 511?
fn is_outside(n: u64) -> bool
    ensures { result ≡ outside n }
{
    !matches!(n, 2..=511)
}

// The size of the image at the start of the input, by its word 0; 0 where that is outside, or is not there whole.
pub fn image_size(input: &[u8]) -> usize
    ensures result { result ≡ image_size input.now }
{
    if input.len() < 8 {
        return 0;
    }
    let n = read_word(input, 0);
    if is_outside(n) {
        return 0;
    }
    128 * (n as usize + 1)
}

// The size of the image at the start of the input, if it is whole and one may still be read, else 0.
pub fn readable_size(input: &[u8], left: u32) -> usize
    ensures result { result ≡ readable left input.now }
{
    let size = image_size(input);
    if left == 0 || input.len() < size {
        0
    } else {
        size
    }
}
