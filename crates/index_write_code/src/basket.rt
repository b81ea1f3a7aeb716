// A basket's index writes: its slots leave the reuse chain, and then each key is linked and appended.
ghost use Rattle.std.specs.Prelude.{◌≡◌, List, cond, ℕ, ◌+◌, ◌<◌, eqb, length, get_or};
ghost use Rattle.index.specs.Index.{index_of};
ghost use Rattle.index.specs.Basket.{all_taken_of, slot_before, link_by};
ghost use Rattle.index.specs.declared.Action.TheVariants.{Write, Remove};
ghost use Rattle.index.specs.declared.Mode.TheVariants.{Insert, Replace};
ghost use Rattle.index.specs.inner.Parts.{link_next};
ghost use Rattle.index.specs.inner.Basket.{takens_from, TakensInside, left_state, LinksInside};

use crate::change::{append_slot, link};
use index::{Action, Mode, State};

// The last slot of reuse after a slot left it that follows prev.
fn last_without(last: u32, slot: u32, prev: u32) -> u32
    ensures { result ≡ cond (eqb last slot) prev last }
{
    if last == slot { prev } else { last }
}

// A slot leaves the reuse chain; prev is the slot before it that stays, 0 for none.
fn take_slot(next: &mut [u32], state: State, slot: u32, prev: u32) -> State
    requires { (slot < length next.old) × (prev < length next.old) }
    ensures { (result ≡ left_state next.old state slot prev) ×
        (next.new ≡ link_next next.old prev (get_or next.old slot 0)) }
{
    let follow = next[slot as usize];
    let last = last_without(state.last, slot, prev);
    if prev == 0 {
        return State {
            first: follow,
            last,
            ..state
        };
    }
    next[prev as usize] = follow;
    State { last, ..state }
}

// So many slots leave the reuse chain, in order.
pub fn take_all(
    next: &mut [u32],
    state: State,
    slots: [u32; 8],
    prevs: [u32; 8],
    count: usize,
) -> State
    requires { TakensInside slots prevs count (length next.old) }
    ensures result { (heads : List ℕ) → index_of heads next.new result ≡ all_taken_of (index_of heads next.old state) (takens_from slots prevs 0 count) }
{
    let mut rest = state;
    for j in 0..count {
        rest = take_slot(next, rest, slots[j], prevs[j]);
    }
    rest
}

// The slot from which a link leads to the target, 0 for the start of the chain, from the chain's first slot on.
fn slot_before(next: &[u32], n: usize, target: u32, first: u32) -> u32
    requires { length next.now ≡ n + 1 }
    ensures { result ≡ slot_before next.now n n target 0 first }
{
    let mut prev: u32 = 0;
    let mut at = first;
    for _ in 0..n {
        if at == target || at == 0 || n < at as usize {
            return prev;
        }
        prev = at;
        at = next[at as usize];
    }
    prev
}

// An insert: the slot is linked at the end of the chain of head h.
fn insert_linked(
    heads: &mut [u32],
    next: &mut [u32],
    n: usize,
    state: State,
    h: usize,
    slot: u32,
) -> State
    requires { LinksInside heads.old next.old n state h 0 slot }
    ensures { index_of heads.new next.new result
        ≡ link_by n (index_of heads.old next.old state) (Write Insert) h 0 slot }
{
    let prev = slot_before(next, n, 0, heads[h]);
    next[slot as usize] = 0;
    link(heads, next, h, prev, slot);
    state
}

// A replace: the slot replaces old in the chain of head h; old joins the reuse chain.
fn replace_linked(
    heads: &mut [u32],
    next: &mut [u32],
    n: usize,
    state: State,
    h: usize,
    old: u32,
    slot: u32,
) -> State
    requires { LinksInside heads.old next.old n state h old slot }
    ensures { index_of heads.new next.new result
        ≡ link_by n (index_of heads.old next.old state) (Write Replace) h old slot }
{
    let prev = slot_before(next, n, old, heads[h]);
    next[slot as usize] = next[old as usize];
    link(heads, next, h, prev, slot);
    append_slot(next, state, old)
}

// A remove: old is unlinked from the chain of head h, and old and then the slot join the reuse chain.
fn remove_linked(
    heads: &mut [u32],
    next: &mut [u32],
    n: usize,
    state: State,
    h: usize,
    old: u32,
    slot: u32,
) -> State
    requires { LinksInside heads.old next.old n state h old slot }
    ensures { index_of heads.new next.new result ≡ link_by n (index_of heads.old next.old state) Remove h old slot }
{
    let prev = slot_before(next, n, old, heads[h]);
    let follow = next[old as usize];
    link(heads, next, h, prev, follow);
    let joined = append_slot(next, state, old);
    append_slot(next, joined, slot)
}

// A key of head h is linked and appended, by what is asked for it; old is the slot of its old record, slot that of its
// new one.
pub fn link_item(
    heads: &mut [u32],
    next: &mut [u32],
    n: usize,
    state: State,
    action: Action,
    h: usize,
    old: u32,
    slot: u32,
) -> State
    requires { LinksInside heads.old next.old n state h old slot }
    ensures result { index_of heads.new next.new result
        ≡ link_by n (index_of heads.old next.old state) action h old slot }
{
    match action {
        Action::Write(Mode::Insert) => insert_linked(heads, next, n, state, h, slot),
        Action::Write(Mode::Replace) => replace_linked(heads, next, n, state, h, old, slot),
        Action::Remove => remove_linked(heads, next, n, state, h, old, slot),
    }
}
