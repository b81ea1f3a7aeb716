// Basket for the owner of an index.
ghost use Rattle.std.specs.Prelude.{◌≡◌, length, true};
ghost use Rattle.index.specs.Index.{index_of};
ghost use Rattle.calls.specs.Basket.{basket_result_by};
ghost use Rattle.calls.specs.BasketItems.{changes_of};
ghost use Rattle.calls.specs.BasketBuffers.{basket_end, buffers_after_lists};

use calls::{BasketAnswer, BasketItem};
use calls_basket_code::basket::basket_in;
use index::State;

// The basket for the owner of its index. It is not the basket of document 02, whose refusals, as those of document 01's
// calls, hold for any index.
pub fn own_basket(
    image: &[u8],
    heads: &mut [u32],
    next: &mut [u32],
    state: State,
    count: usize,
    items: [BasketItem; 8],
    values: [u8; 640],
    at: &mut [u32],
    words: &mut [u64],
) -> BasketAnswer
    ensures result { basket_end count result at.new words.new heads.new next.new
        ≡ buffers_after_lists at.old words.old
        (basket_result_by true 1 image.now (index_of heads.old next.old state) (changes_of 1 count items values)
        (length at.old) (length words.old)) }
{
    basket_in(
        image, 1, heads, next, state, count, items, values, at, words, true,
    )
}

// The same in layout 2.
pub fn own_basket2(
    image: &[u8],
    heads: &mut [u32],
    next: &mut [u32],
    state: State,
    count: usize,
    items: [BasketItem; 8],
    values: [u8; 640],
    at: &mut [u32],
    words: &mut [u64],
) -> BasketAnswer
    ensures result { basket_end count result at.new words.new heads.new next.new
        ≡ buffers_after_lists at.old words.old
        (basket_result_by true 2 image.now (index_of heads.old next.old state) (changes_of 2 count items values)
        (length at.old) (length words.old)) }
{
    basket_in(
        image, 2, heads, next, state, count, items, values, at, words, true,
    )
}
