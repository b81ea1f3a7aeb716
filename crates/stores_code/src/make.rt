// The making of stores.
ghost use Rattle.std.specs.Prelude.{◌≡◌, length, take, drop};
ghost use Rattle.stores.specs.Store.{zipped, played};
ghost use Rattle.stores.specs.inner.Needs.{Makeable};

use words_code::write_word;

// The stores number from to from + count - 1 are made, in order.
pub fn make_stores(image: &mut [u8], at: &[u32], value: &[u64], from: usize, count: usize)
    requires { Makeable (length image.old) at.now value.now from count }
    ensures result { image.new ≡ played (take count (drop from (zipped at.now value.now))) image.old }
{
    for k in from..from + count {
        write_word(image, at[k] as usize, value[k]);
    }
}
