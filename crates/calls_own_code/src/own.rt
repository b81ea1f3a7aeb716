// Insert, replace and remove for the owner of an index, that is, for an index from recovery and the accepted calls
// since. They are no calls of document 01, whose refusals hold for any index: these look at the key's chain, at the
// slots met along the reuse chain up to the one that is taken, and at line A of the newest slot. Of their own index
// they are the calls for any index; of any other they are as safe, and refuse by these slots. A call
// whose name ends in 2 is layout 2's, and its key is two words. Each is a public name, which C calls too, with its own
// constants.
ghost use Rattle.std.specs.Prelude.{◌≡◌, true, length};
ghost use Rattle.layout.specs.Record.{key_with};
ghost use Rattle.stores.specs.Store.{zipped};
ghost use Rattle.index.specs.declared.Mode.TheVariants.{Insert, Replace};
ghost use Rattle.index.specs.Index.{index_of};
ghost use Rattle.calls.specs.Moved.{write_moved};
ghost use Rattle.calls.specs.Change.{change_end, buffers_after, write_result_by, remove_result_by};

use calls::Change;
use calls_write_layout_code::remove::remove_in;
use calls_write_layout_code::write::{insert_in, replace_in};
use index::State;

// A key that is not held gets the value; the answer is insert's.
pub fn own_insert(
    image: &[u8],
    heads: &mut [u32],
    next: &mut [u32],
    state: State,
    key: u64,
    value: &[u8],
    at: &mut [u32; 16],
    words: &mut [u64; 16],
) -> Change
    ensures result { change_end result at.new words.new heads.new next.new
        ≡ buffers_after (zipped at.old words.old)
        (write_result_by true 1 image.now (index_of heads.old next.old state) Insert key value.now) }
    ensures moved { result.moved ≡ write_moved result.outcome (length value.now) }
{
    insert_in(image, 1, heads, next, state, key, 0, value, at, words, true)
}

// A key that is held gets the value in place of its old one; the answer is replace's.
pub fn own_replace(
    image: &[u8],
    heads: &mut [u32],
    next: &mut [u32],
    state: State,
    key: u64,
    value: &[u8],
    at: &mut [u32; 16],
    words: &mut [u64; 16],
) -> Change
    ensures result { change_end result at.new words.new heads.new next.new
        ≡ buffers_after (zipped at.old words.old)
        (write_result_by true 1 image.now (index_of heads.old next.old state) Replace key value.now) }
    ensures moved { result.moved ≡ write_moved result.outcome (length value.now) }
{
    replace_in(image, 1, heads, next, state, key, 0, value, at, words, true)
}

// The key is dropped; the answer is remove's.
pub fn own_remove(
    image: &[u8],
    heads: &mut [u32],
    next: &mut [u32],
    state: State,
    key: u64,
    at: &mut [u32; 16],
    words: &mut [u64; 16],
) -> Change
    ensures result { change_end result at.new words.new heads.new next.new
        ≡ buffers_after (zipped at.old words.old)
        (remove_result_by true 1 image.now (index_of heads.old next.old state) key) }
    ensures moved { result.moved ≡ 0 }
{
    remove_in(image, 1, heads, next, state, key, 0, at, words, true)
}

// The insert in layout 2.
pub fn own_insert2(
    image: &[u8],
    heads: &mut [u32],
    next: &mut [u32],
    state: State,
    low: u64,
    high: u64,
    value: &[u8],
    at: &mut [u32; 16],
    words: &mut [u64; 16],
) -> Change
    ensures result { change_end result at.new words.new heads.new next.new
        ≡ buffers_after (zipped at.old words.old)
        (write_result_by true 2 image.now (index_of heads.old next.old state) Insert (key_with low high) value.now) }
    ensures moved { result.moved ≡ write_moved result.outcome (length value.now) }
{
    insert_in(
        image, 2, heads, next, state, low, high, value, at, words, true,
    )
}

// The replace in layout 2.
pub fn own_replace2(
    image: &[u8],
    heads: &mut [u32],
    next: &mut [u32],
    state: State,
    low: u64,
    high: u64,
    value: &[u8],
    at: &mut [u32; 16],
    words: &mut [u64; 16],
) -> Change
    ensures result { change_end result at.new words.new heads.new next.new
        ≡ buffers_after (zipped at.old words.old)
        (write_result_by true 2 image.now (index_of heads.old next.old state) Replace (key_with low high) value.now) }
    ensures moved { result.moved ≡ write_moved result.outcome (length value.now) }
{
    replace_in(
        image, 2, heads, next, state, low, high, value, at, words, true,
    )
}

// The remove in layout 2.
pub fn own_remove2(
    image: &[u8],
    heads: &mut [u32],
    next: &mut [u32],
    state: State,
    low: u64,
    high: u64,
    at: &mut [u32; 16],
    words: &mut [u64; 16],
) -> Change
    ensures result { change_end result at.new words.new heads.new next.new
        ≡ buffers_after (zipped at.old words.old)
        (remove_result_by true 2 image.now (index_of heads.old next.old state) (key_with low high)) }
    ensures moved { result.moved ≡ 0 }
{
    remove_in(image, 2, heads, next, state, low, high, at, words, true)
}
