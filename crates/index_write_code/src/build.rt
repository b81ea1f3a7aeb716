// Recovery's index writes: the slots of an order, each pushed to the front of its chain.
ghost use Rattle.std.specs.Prelude.{◌≡◌, ◌≤◌, ◌<◌, length};
ghost use Rattle.index.specs.Index.{index_of};
ghost use Rattle.index.specs.inner.Build.{push, build, chain_from, place_in, unbuilt, Ordered};

use index::State;

// The slot goes to the front of its chain: place 0 is reuse, h + 1 the chain of head h.
fn push_front(heads: &mut [u32], next: &mut [u32], state: State, place: u32, slot: u32) -> State
    requires { (slot < length next.old) × (place ≤ length heads.old) }
    ensures { index_of heads.new next.new result ≡ push (index_of heads.old next.old state) (chain_from place) slot }
{
    if place == 0 {
        next[slot as usize] = state.first;
        let last = if state.last == 0 { slot } else { state.last };
        return State {
            first: slot,
            last,
            ..state
        };
    }
    let h = (place - 1) as usize;
    next[slot as usize] = heads[h];
    heads[h] = slot;
    state
}

// The slots of an order, pushed from its end, each at the front of the chain that places has for it. For heads of zeros
// and a next that starts with zero these are the chains of the order.
pub fn chain_up(heads: &mut [u32], next: &mut [u32], order: &[u32], places: &[u32]) -> State
    requires { Ordered heads.old next.old order.now places.now }
    ensures result { index_of heads.new next.new result
        ≡ build (place_in places.now) (unbuilt heads.old next.old) order.now }
{
    let mut state = State {
        first: 0,
        last: 0,
        live: 0,
        version: 0,
        newest: 0,
    };
    for i in (0..order.len()).rev() {
        let slot = order[i];
        state = push_front(heads, next, state, places[slot as usize], slot);
    }
    state
}
