// Play, with lent numbers for the sixteen stores.
ghost use Rattle.std.specs.Prelude.{◌≡◌};
ghost use Rattle.interface.specs.Set.{play_end, play_result};

use orderset::{Stores, play, return_code};

// The first a stores of the first half and the first b of the second are made.
pub fn play_lent(image: &mut [u8], at: &[u32; 16], value: &[u64; 16], a: usize, b: usize) -> u32
    ensures result { play_end result image.new ≡ play_result image.old at.now value.now a b }
{
    let stores = Stores {
        at: *at,
        value: *value,
    };
    return_code(play(image, stores, a, b))
}
