// The removes among the void records.
ghost use Rattle.std.specs.Prelude.{◌≡◌};
ghost use Rattle.layout.specs.Size.{slots_in};
ghost use Rattle.layout.specs.Content.{contents_of, size_fields_of};
ghost use Rattle.slot_counts.specs.inner.Countable.{OpensVoid, void_removes};

use layout_fields_code::fields::slot_kind;
use recovery::Invalidations;

// How many of the slots that these stores open hold a remove; the store of slot s is to word 16 s.
pub fn void_removes(image: &[u8], l: usize, invalidations: Invalidations) -> u32
    requires { OpensVoid image.now l invalidations }
    ensures result { result ≡ void_removes (contents_of l image.now) (size_fields_of l image.now) (slots_in image.now) }
{
    let mut removes = 0;
    for i in 0..invalidations.count as usize {
        let s = (invalidations.at[i] / 16) as usize;
        if slot_kind(image, l, s) == 2 {
            removes += 1;
        }
    }
    removes
}
