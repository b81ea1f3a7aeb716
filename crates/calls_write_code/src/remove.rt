// Remove: a key is no longer held. A call whose name ends in 2 is layout 2's, and its key is two words.
ghost use Rattle.std.specs.Prelude.{◌≡◌};
ghost use Rattle.layout.specs.Record.{key_with};
ghost use Rattle.stores.specs.Store.{zipped};
ghost use Rattle.index.specs.Index.{index_of};
ghost use Rattle.calls.specs.Change.{change_end, buffers_after, remove_result};

use calls::Change;
use calls_write_layout_code::remove::remove_in;
use index::State;

// The key is dropped: the slot taken and the version, the new state and, lent, the stores to be played; absent where it
// is not held; or a refusal. Neither of the last two changes anything. Each has the slots compared; no word is moved.
pub fn remove(
    image: &[u8],
    heads: &mut [u32],
    next: &mut [u32],
    state: State,
    key: u64,
    at: &mut [u32; 16],
    words: &mut [u64; 16],
) -> Change
    ensures result { change_end result at.new words.new heads.new next.new
        ≡ buffers_after (zipped at.old words.old)
        (remove_result 1 image.now (index_of heads.old next.old state) key) }
    ensures moved { result.moved ≡ 0 }
{
    remove_in(image, 1, heads, next, state, key, 0, at, words, false)
}

// Remove in layout 2: a key of two words.
pub fn remove2(
    image: &[u8],
    heads: &mut [u32],
    next: &mut [u32],
    state: State,
    low: u64,
    high: u64,
    at: &mut [u32; 16],
    words: &mut [u64; 16],
) -> Change
    ensures result { change_end result at.new words.new heads.new next.new
        ≡ buffers_after (zipped at.old words.old)
        (remove_result 2 image.now (index_of heads.old next.old state) (key_with low high)) }
    ensures moved { result.moved ≡ 0 }
{
    remove_in(image, 2, heads, next, state, low, high, at, words, false)
}
