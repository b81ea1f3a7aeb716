// What is left of a block: whether it ends the reading, and carrying it over to the front of the buffer.
ghost use Rattle.std.specs.Prelude.{◌≡◌, ℕ, ◌+◌, ◌≤◌, ◌<◌, length, get_or};
ghost use Rattle.report_text.specs.Blocks.{ends_reading};

use crate::size::image_size;

// Does the reading end here, whatever follows?
pub fn ends_reading(rest: &[u8], left: u32) -> bool
    ensures result { result ≡ ends_reading left rest.now }
{
    left == 0 || rest.len() >= 8 && image_size(rest) == 0
}

// The bytes from position `from` up to `have` are moved to the front.
pub fn move_down(input: &mut [u8], from: usize, have: usize)
    requires { (from ≤ have) × (have ≤ length input.old) }
    ensures moved { (k : ℕ) → from + k < have → get_or input.new k 0 ≡ get_or input.old (from + k) 0 }
{
    input.copy_within(from..have, 0);
}
