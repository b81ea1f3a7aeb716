// The index writes of the calls, in document 01's order.
ghost use Rattle.std.specs.Prelude.{◌≡◌, ◌+◌, ◌-◌, ◌<◌, length};
ghost use Rattle.index.specs.Index.{index_of, with_counts};
ghost use Rattle.index.specs.inner.Parts.{WritesInside, PlaceInside, insert_new, replace_held, remove_held, write_at};
ghost use Rattle.index.specs.inner.Parts.{live_at, link_heads, link_next, take_state, append_next, append_state};

use index::{Place, State};

// The link to what follows prev in the chain of head h becomes slot; prev 0 is the head itself.
#[tactic(auto, unfolding(index::specs::inner::Parts::link_heads, index::specs::inner::Parts::link_next))]
pub fn link(heads: &mut [u32], next: &mut [u32], h: usize, prev: u32, slot: u32)
    requires { (h < length heads.old) × (prev < length next.old) }
    ensures result { (heads.new ≡ link_heads heads.old h prev slot) × (next.new ≡ link_next next.old prev slot) }
{
    if prev == 0 {
        heads[h] = slot;
    } else {
        next[prev as usize] = slot;
    }
}

// The first slot leaves the reuse chain.
#[tactic(auto, unfolding(index::specs::inner::Parts::take_state))]
fn take(next: &[u32], state: State) -> State
    requires { state.first < length next.now }
    ensures { result ≡ take_state next.now state }
{
    let first = next[state.first as usize];
    let last = if first == 0 { 0 } else { state.last };
    State {
        first,
        last,
        ..state
    }
}

// The slot joins the end of the reuse chain.
#[tactic(auto, unfolding(index::specs::inner::Parts::append_state, index::specs::inner::Parts::append_next, index::specs::inner::Parts::link_next))]
pub fn append_slot(next: &mut [u32], state: State, slot: u32) -> State
    requires { (slot < length next.old) × (state.last < length next.old) }
    ensures result { (result ≡ append_state state slot) × (next.new ≡ append_next next.old state slot) }
{
    next[slot as usize] = 0;
    if state.last == 0 {
        return State {
            first: slot,
            last: slot,
            ..state
        };
    }
    next[state.last as usize] = slot;
    State {
        last: slot,
        ..state
    }
}

// An insert: the first reuse slot is taken and linked after prev, the last slot of its chain.
fn insert_new(heads: &mut [u32], next: &mut [u32], state: State, h: usize, prev: u32) -> State
    requires { (WritesInside heads.old next.old state h prev prev) × (state.live < 65535) }
    ensures { index_of heads.new next.new result
        ≡ with_counts (insert_new (index_of heads.old next.old state) h prev) (state.live + 1) (state.version + 1) state.first }
{
    let slot = state.first;
    let rest = take(next, state);
    next[slot as usize] = 0;
    link(heads, next, h, prev, slot);
    State {
        live: rest.live + 1,
        version: rest.version + 1,
        newest: slot,
        ..rest
    }
}

// A replace: the first reuse slot is taken and replaces old, which follows prev; old joins the reuse chain.
fn replace_held(
    heads: &mut [u32],
    next: &mut [u32],
    state: State,
    h: usize,
    prev: u32,
    old: u32,
) -> State
    requires { WritesInside heads.old next.old state h prev old }
    ensures { index_of heads.new next.new result
        ≡ with_counts (replace_held (index_of heads.old next.old state) h prev old) state.live (state.version + 1)
        state.first }
{
    let slot = state.first;
    let rest = take(next, state);
    next[slot as usize] = next[old as usize];
    link(heads, next, h, prev, slot);
    let back = append_slot(next, rest, old);
    State {
        version: back.version + 1,
        newest: slot,
        ..back
    }
}

// An insert or a replace of a key that stands at this place in the chain of head h.
pub fn write_place(
    heads: &mut [u32],
    next: &mut [u32],
    state: State,
    h: usize,
    place: Place,
) -> State
    requires { PlaceInside heads.old next.old state h place }
    ensures result { index_of heads.new next.new result
        ≡ with_counts (write_at (index_of heads.old next.old state) h place) (live_at state.live place) (state.version + 1)
        state.first }
{
    match place {
        Place::Held { slot, prev } => replace_held(heads, next, state, h, prev, slot),
        Place::NotHeld { prev } => insert_new(heads, next, state, h, prev),
    }
}

// A remove: the first reuse slot is taken, old, which follows prev, is unlinked, and old and then the slot just taken
// join the reuse chain.
pub fn remove_held(
    heads: &mut [u32],
    next: &mut [u32],
    state: State,
    h: usize,
    prev: u32,
    old: u32,
) -> State
    requires { (WritesInside heads.old next.old state h prev old) × (0 < state.live) }
    ensures result { index_of heads.new next.new result
        ≡ with_counts (remove_held (index_of heads.old next.old state) h prev old) (state.live - 1) (state.version + 1)
        state.first }
{
    let slot = state.first;
    let rest = take(next, state);
    let follow = next[old as usize];
    link(heads, next, h, prev, follow);
    let joined = append_slot(next, rest, old);
    let all = append_slot(next, joined, slot);
    State {
        live: all.live - 1,
        version: all.version + 1,
        newest: slot,
        ..all
    }
}
