// Insert and replace: a key that is not held, or one that is, gets a value. A call whose name ends in 2 is
// layout 2's, and its key is two words. Each of the four is a public name, which C calls too, with its own constants.
ghost use Rattle.std.specs.Prelude.{◌≡◌, length};
ghost use Rattle.layout.specs.Record.{key_with};
ghost use Rattle.stores.specs.Store.{zipped};
ghost use Rattle.index.specs.declared.Mode.TheVariants.{Insert, Replace};
ghost use Rattle.index.specs.Index.{index_of};
ghost use Rattle.calls.specs.Moved.{write_moved};
ghost use Rattle.calls.specs.Change.{change_end, buffers_after, write_result};

use calls::Change;
use calls_write_layout_code::write::{insert_in, replace_in};
use index::State;

// A key that is not held gets the value: the slot taken and the version, the new state, the slots compared, the words
// moved and, lent, the stores to be played; or a refusal, which changes nothing, with the slots compared.
pub fn insert(
    image: &[u8],
    heads: &mut [u32],
    next: &mut [u32],
    state: State,
    key: u64,
    value: &[u8],
    at: &mut [u32; 16],
    words: &mut [u64; 16],
) -> Change
    ensures result { change_end result at.new words.new heads.new next.new
        ≡ buffers_after (zipped at.old words.old)
        (write_result 1 image.now (index_of heads.old next.old state) Insert key value.now) }
    ensures moved { result.moved ≡ write_moved result.outcome (length value.now) }
{
    insert_in(
        image, 1, heads, next, state, key, 0, value, at, words, false,
    )
}

// A key that is held gets the value in place of its old one; the answer is as above.
pub fn replace(
    image: &[u8],
    heads: &mut [u32],
    next: &mut [u32],
    state: State,
    key: u64,
    value: &[u8],
    at: &mut [u32; 16],
    words: &mut [u64; 16],
) -> Change
    ensures result { change_end result at.new words.new heads.new next.new
        ≡ buffers_after (zipped at.old words.old)
        (write_result 1 image.now (index_of heads.old next.old state) Replace key value.now) }
    ensures moved { result.moved ≡ write_moved result.outcome (length value.now) }
{
    replace_in(
        image, 1, heads, next, state, key, 0, value, at, words, false,
    )
}

// Insert in layout 2: a key of two words.
pub fn insert2(
    image: &[u8],
    heads: &mut [u32],
    next: &mut [u32],
    state: State,
    low: u64,
    high: u64,
    value: &[u8],
    at: &mut [u32; 16],
    words: &mut [u64; 16],
) -> Change
    ensures result { change_end result at.new words.new heads.new next.new
        ≡ buffers_after (zipped at.old words.old)
        (write_result 2 image.now (index_of heads.old next.old state) Insert (key_with low high) value.now) }
    ensures moved { result.moved ≡ write_moved result.outcome (length value.now) }
{
    insert_in(
        image, 2, // an insert in layout 2
        heads, next, state, low, high, value, at, words, false,
    )
}

// Replace in layout 2.
pub fn replace2(
    image: &[u8],
    heads: &mut [u32],
    next: &mut [u32],
    state: State,
    low: u64,
    high: u64,
    value: &[u8],
    at: &mut [u32; 16],
    words: &mut [u64; 16],
) -> Change
    ensures result { change_end result at.new words.new heads.new next.new
        ≡ buffers_after (zipped at.old words.old)
        (write_result 2 image.now (index_of heads.old next.old state) Replace (key_with low high) value.now) }
    ensures moved { result.moved ≡ write_moved result.outcome (length value.now) }
{
    replace_in(
        image, 2, // a replace in layout 2
        heads, next, state, low, high, value, at, words, false,
    )
}
