// A basket's changes of the index.
ghost use Rattle.std.specs.Prelude.{◌≡◌, ℕ, length};
ghost use Rattle.index.specs.Index.{index_of};
ghost use Rattle.index.specs.Basket.{link_all, basket_index};
ghost use Rattle.index.specs.inner.Basket.{takens_from, TakensInside};
ghost use Rattle.calls.specs.inner.Basket.{items_from, ItemsInside};

use calls::BasketItem;
use index::State;
use index_read_code::head::head_of;
use index_write_code::basket::{link_item, take_all};

// So many keys are linked and appended, in order.
fn link_all(
    heads: &mut [u32],
    next: &mut [u32],
    n: usize,
    state: State,
    count: usize,
    items: [BasketItem; 8],
    olds: [u32; 8],
    slots: [u32; 8],
) -> State
    requires { ItemsInside n (length heads.old) (length next.old) state.last count olds slots }
    ensures { (l : ℕ) → index_of heads.new next.new result
        ≡ link_all n (index_of heads.old next.old state) (items_from l (length heads.old) items olds slots 0 count) }
{
    let mut rest = state;
    for j in 0..count {
        let item = items[j];
        let h = head_of(item.low, heads.len());
        rest = link_item(heads, next, n, rest, item.action, h, olds[j], slots[j]);
    }
    rest
}

// The slots leave the reuse chain, and then the keys are linked and appended.
pub fn change_index(
    heads: &mut [u32],
    next: &mut [u32],
    n: usize,
    state: State,
    count: usize,
    items: [BasketItem; 8],
    olds: [u32; 8],
    slots: [u32; 8],
    prevs: [u32; 8],
) -> State
    requires { TakensInside slots prevs count (length next.old) × ItemsInside n (length heads.old) (length next.old) state.last count olds slots }
    ensures result { (l : ℕ) → index_of heads.new next.new result
        ≡ basket_index n (index_of heads.old next.old state) (takens_from slots prevs 0 count)
        (items_from l (length heads.old) items olds slots 0 count) }
{
    let rest = take_all(next, state, slots, prevs, count);
    link_all(heads, next, n, rest, count, items, olds, slots)
}
