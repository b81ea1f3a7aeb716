// Play: stores are made on the lent bytes.
ghost use Rattle.std.specs.Prelude.{◌≡◌};
ghost use Rattle.refusals.specs.Number.{fault_in};
ghost use Rattle.stores.specs.Play.{play_end, play_result, play_list_result};

use crate::fault::{check_list, check_play};
use crate::make::make_stores;
use refusals::Refusal;
use stores::Stores;

// The first a stores of the first half and the first b of the second are made. The refusals 1, 14 and 15 change no
// byte.
pub fn play(image: &mut [u8], stores: Stores, a: usize, b: usize) -> Result<(), Refusal>
    ensures result { play_end (fault_in result) image.new ≡ play_result image.old stores.at stores.value a b }
{
    let at = stores.at;
    let value = stores.value;
    check_play(image.len(), &at, a, b)?;
    make_stores(image, &at, &value, 0, a);
    make_stores(image, &at, &value, 8, b);
    Ok(())
}

// All stores of a list are made, in order. The refusal 15 changes no byte.
pub fn play_list(image: &mut [u8], at: &[u32], value: &[u64]) -> Result<(), Refusal>
    ensures result { play_end (fault_in result) image.new ≡ play_list_result image.old at.now value.now }
{
    check_list(image.len(), at, value.len())?;
    make_stores(image, at, value, 0, at.len());
    Ok(())
}
