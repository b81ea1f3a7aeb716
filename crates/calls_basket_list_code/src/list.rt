// A basket that fills a lent list of records, in either layout.
ghost use Rattle.std.specs.Prelude.{◌≡◌, true, length};
ghost use Rattle.layout.specs.Record.{Layout};
ghost use Rattle.index.specs.Index.{index_of};
ghost use Rattle.calls.specs.Basket.{basket_result, basket_result_by};
ghost use Rattle.calls.specs.BasketItems.{changes_of};
ghost use Rattle.calls.specs.BasketList.{basket_list_end, buffers_after_list};

use crate::made::basket_made;
use calls::{BasketAnswer, BasketItem, BasketMade};
use index::State;
use stores::Store;
use stores_list_code::list::fill_store_list;

// A basket that fills a lent list of records, in layout l; own tells whether it is for the owner of its index.
fn list_in(
    image: &[u8],
    l: usize,
    heads: &mut [u32],
    next: &mut [u32],
    state: State,
    count: usize,
    items: [BasketItem; 8],
    values: [u8; 640],
    list: &mut [Store],
    own: bool,
) -> BasketAnswer
    requires { Layout l }
    ensures { basket_list_end count result list.new heads.new next.new
        ≡ buffers_after_list list.old
        (basket_result_by own l image.now (index_of heads.old next.old state) (changes_of l count items values)
        (length list.old) (length list.old)) }
{
    let BasketMade {
        answer,
        stored,
        at,
        words,
    } = basket_made(
        image,
        l,
        heads,
        next,
        state,
        count,
        items,
        values,
        list.len(),
        own,
    );
    fill_store_list(list, &at, &words, stored);
    answer
}

// Up to eight keys are inserted, replaced or removed; item i's value is the first bytes of values from byte 80 × i on.
// The version, the slots taken, the new state and, at the front of the lent list, sixteen stores for each key to be
// played; or a refusal, which changes nothing.
pub fn basket_list(
    image: &[u8],
    heads: &mut [u32],
    next: &mut [u32],
    state: State,
    count: usize,
    items: [BasketItem; 8],
    values: [u8; 640],
    list: &mut [Store],
) -> BasketAnswer
    ensures result { basket_list_end count result list.new heads.new next.new
        ≡ buffers_after_list list.old
        (basket_result 1 image.now (index_of heads.old next.old state) (changes_of 1 count items values)
        (length list.old) (length list.old)) }
{
    list_in(
        image, 1, heads, next, state, count, items, values, list, false,
    )
}

// A basket that fills a lent list, in layout 2: keys of two words.
pub fn basket_list2(
    image: &[u8],
    heads: &mut [u32],
    next: &mut [u32],
    state: State,
    count: usize,
    items: [BasketItem; 8],
    values: [u8; 640],
    list: &mut [Store],
) -> BasketAnswer
    ensures result { basket_list_end count result list.new heads.new next.new
        ≡ buffers_after_list list.old
        (basket_result 2 image.now (index_of heads.old next.old state) (changes_of 2 count items values)
        (length list.old) (length list.old)) }
{
    list_in(
        image, 2, heads, next, state, count, items, values, list, false,
    )
}

// The same for the owner of the index. It is no call of document 01: where the index is not the image's own, its
// refusals 11 and 28 go by the slots that it looks at.
pub fn own_basket_list(
    image: &[u8],
    heads: &mut [u32],
    next: &mut [u32],
    state: State,
    count: usize,
    items: [BasketItem; 8],
    values: [u8; 640],
    list: &mut [Store],
) -> BasketAnswer
    ensures result { basket_list_end count result list.new heads.new next.new
        ≡ buffers_after_list list.old
        (basket_result_by true 1 image.now (index_of heads.old next.old state) (changes_of 1 count items values)
        (length list.old) (length list.old)) }
{
    list_in(
        image, 1, heads, next, state, count, items, values, list, true,
    )
}

// The same in layout 2.
pub fn own_basket_list2(
    image: &[u8],
    heads: &mut [u32],
    next: &mut [u32],
    state: State,
    count: usize,
    items: [BasketItem; 8],
    values: [u8; 640],
    list: &mut [Store],
) -> BasketAnswer
    ensures result { basket_list_end count result list.new heads.new next.new
        ≡ buffers_after_list list.old
        (basket_result_by true 2 image.now (index_of heads.old next.old state) (changes_of 2 count items values)
        (length list.old) (length list.old)) }
{
    list_in(
        image, 2, heads, next, state, count, items, values, list, true,
    )
}
