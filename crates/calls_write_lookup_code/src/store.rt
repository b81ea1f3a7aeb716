// The refusals of a call that stores and is not refused for its key.
ghost use Rattle.std.specs.Prelude.{◌≡◌, true};
ghost use Rattle.index.specs.declared.Lookup.TheVariants.{Accepted, Refused};
ghost use Rattle.allocation.specs.Allocation.{allocation_by};
ghost use Rattle.allocation.specs.inner.Takeable.{Walkable};
ghost use Rattle.calls.specs.Change.{store_fault};

use allocation_code::take::{full_fault, is_own_open, take_fault_by};
use index::{Lookup, Place, State};
use index_read_code::fault::{ends_fault, live_fault};
use layout_line_code::line::check_version;
use refusals::return_code;

// Do the state and the first slot of the reuse chain tell that a call that takes one slot is not refused? This is the
// usual case, and small, so that the compiler makes it part of each call; own tells whether it is for the owner of its
// index. For any other index it tells nothing, and store_fault decides.
pub fn is_accepted(
    image: &[u8],
    l: usize,
    next: &[u32],
    n: usize,
    state: State,
    inserts: u32,
    removes: u32,
    own: bool,
) -> bool
    requires { Walkable image.now next.now l n }
    ensures result { result ≡ true
        → store_fault (allocation_by own l image.now next.now n state.first state.newest 1) n state inserts removes ≡ 0 }
{
    if ends_fault(n as u32, state.first, state.last) != 0
        || state.live < removes
        || live_fault(n as u32, state.live, inserts, removes) != 0
        || check_version(state.version).is_err()
    {
        return false;
    }
    own && is_own_open(image, l, next, n, state.first, state.newest)
}

// 11 (reuse, or fewer live than are removed), 28 or 9 for a call that takes one slot, else 0. Several functions call it,
// so that it is part of none of them.
pub fn store_fault(
    image: &[u8],
    l: usize,
    next: &[u32],
    n: usize,
    state: State,
    inserts: u32,
    removes: u32,
    own: bool,
) -> u32
    requires { Walkable image.now next.now l n }
    ensures result { result
        ≡ store_fault (allocation_by own l image.now next.now n state.first state.newest 1) n state inserts removes }
{
    let ends = ends_fault(n as u32, state.first, state.last);
    if ends != 0 {
        return ends;
    }
    if state.live < removes { // 11: fewer live than are removed
        return 11;
    }
    let room = live_fault(n as u32, state.live, inserts, removes);
    let full = full_fault(next, n, state.first, room);
    if full != 0 {
        return full;
    }
    let take = take_fault_by(own, image, l, next, n, state.first, state.newest);
    if take != 0 {
        return take;
    }
    if room != 0 {
        return room;
    }
    return_code(check_version(state.version))
}

// The place of the key where a call that takes one slot is not refused, else its refusal. It is compiled for each pair
// of counts by itself.
pub(crate) fn lookup_at<const INSERTS: u32, const REMOVES: u32>(
    image: &[u8],
    l: usize,
    next: &[u32],
    n: usize,
    state: State,
    own: bool,
    place: Place,
    compared: u32,
) -> Lookup
    requires { Walkable image.now next.now l n }
    ensures accepted { store_fault (allocation_by own l image.now next.now n state.first state.newest 1) n state INSERTS REMOVES ≡ 0
        → result ≡ Accepted place compared }
    ensures refused { (store_fault (allocation_by own l image.now next.now n state.first state.newest 1) n state INSERTS REMOVES ≡ 0 → ⊥)
        → result ≡ Refused (store_fault (allocation_by own l image.now next.now n state.first state.newest 1) n state INSERTS REMOVES)
        compared }
{
    if is_accepted(image, l, next, n, state, INSERTS, REMOVES, own) {
        return Lookup::Accepted { place, compared };
    }
    match store_fault(image, l, next, n, state, INSERTS, REMOVES, own) {
        0 => Lookup::Accepted { place, compared },
        number => Lookup::Refused { number, compared },
    }
}
