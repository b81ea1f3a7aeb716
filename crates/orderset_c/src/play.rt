// Play, with two counts and of a list.
ghost use Rattle.std.specs.Prelude.{◌≡◌};
ghost use Rattle.interface.specs.Set.{play_end, play_result, play_list_result};

use exports_code::play::play_lent;
use orderset::{play_list, return_code};

// The first a stores of the first half and the first b of the second are made.
#[unsafe(no_mangle)]
pub extern "C" fn orderset_proved_play(
    image: &mut [u8],
    at: &[u32; 16],
    value: &[u64; 16],
    a: usize,
    b: usize,
) -> u32
    ensures result { play_end result image.new ≡ play_result image.old at.now value.now a b }
{
    play_lent(image, at, value, a, b)
}

// All stores of a list are made, in order.
#[unsafe(no_mangle)]
pub extern "C" fn orderset_proved_play_list(image: &mut [u8], at: &[u32], value: &[u64]) -> u32
    ensures result { play_end result image.new ≡ play_list_result image.old at.now value.now }
{
    return_code(play_list(image, at, value))
}
