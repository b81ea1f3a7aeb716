// A basket whose stores are made in arrays.
ghost use Rattle.std.specs.Prelude.{◌≡◌, ◌≤◌};
ghost use Rattle.layout.specs.Record.{Layout};
ghost use Rattle.index.specs.Index.{index_of};
ghost use Rattle.calls.specs.Basket.{basket_result_by};
ghost use Rattle.calls.specs.BasketItems.{changes_of};
ghost use Rattle.calls.specs.inner.Basket.{basket_store_count, MadeOf};

use calls::{BasketItem, BasketMade, BasketOutcome};
use calls_basket_code::basket::basket_in;
use index::State;

// How many stores are handed out.
fn basket_store_count(outcome: BasketOutcome, count: usize) -> usize
    ensures { (result ≡ basket_store_count outcome count) × (result ≤ 128) }
{
    if 8 < count {
        return 0;
    }
    match outcome {
        BasketOutcome::Stored { .. } => 16 * count,
        BasketOutcome::Refused(_) => 0,
    }
}

// A basket for a list with this room, in layout l; own tells whether it is for the owner of its index.
pub fn basket_made(
    image: &[u8],
    l: usize,
    heads: &mut [u32],
    next: &mut [u32],
    state: State,
    count: usize,
    items: [BasketItem; 8],
    values: [u8; 640],
    room: usize,
    own: bool,
) -> BasketMade
    requires { Layout l }
    ensures result { MadeOf
        (basket_result_by own l image.now (index_of heads.old next.old state) (changes_of l count items values)
        room room)
        room count result heads.new next.new }
{
    let mut at = [0u32; 128];
    let mut words = [0u64; 128];
    let n = room.min(128);
    let answer = basket_in(
        image,
        l,
        heads,
        next,
        state,
        count,
        items,
        values,
        &mut at[..n],
        &mut words[..n],
        own,
    );
    let outcome = answer.outcome;
    let stored = basket_store_count(outcome, count);
    BasketMade {
        answer,
        stored,
        at,
        words,
    }
}
