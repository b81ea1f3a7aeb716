// The slots that a basket takes, and the refusals by them, by the live count and by the next version.
ghost use Rattle.std.specs.Prelude.{◌≤◌, ◌<◌};
ghost use Rattle.allocation.specs.Allocation.{allocation_by, allocation_chosen_by};
ghost use Rattle.allocation.specs.inner.Takeable.{Walkable};
ghost use Rattle.calls.specs.inner.Basket.{StoreChoice};

use allocation::Choice;
use allocation_code::choose::{choose_by, none_chosen};
use allocation_code::take::full_fault;
use index::State;
use index_read_code::fault::{ends_fault, live_fault};
use layout_line_code::line::check_version;
use refusals::return_code;

// The slots of a call that wants so many; or 11 (reuse, or fewer live than are removed), 28 or 9; own tells whether it
// is for the owner of its index.
pub fn choose_slots(
    image: &[u8],
    l: usize,
    next: &[u32],
    n: usize,
    state: State,
    wanted: usize,
    inserts: u32,
    removes: u32,
    own: bool,
) -> Choice
    requires { Walkable image.now next.now l n × (0 < wanted) × (wanted ≤ 8) }
    ensures result { StoreChoice (allocation_by own l image.now next.now n state.first state.newest wanted)
        (allocation_chosen_by own l image.now next.now n state.first state.newest wanted) n state wanted inserts removes result }
{
    let ends = ends_fault(n as u32, state.first, state.last);
    if ends != 0 {
        return none_chosen(ends);
    }
    if state.live < removes {
        return none_chosen(11);
    }
    let room = live_fault(n as u32, state.live, inserts, removes);
    let full = full_fault(next, n, state.first, room);
    if full != 0 {
        return none_chosen(full);
    }
    let choice = choose_by(own, image, l, next, n, state.first, state.newest, wanted);
    if choice.fault != 0 {
        return choice;
    }
    if room != 0 {
        return none_chosen(room);
    }
    let version = return_code(check_version(state.version));
    if version != 0 {
        return none_chosen(version);
    }
    choice
}
