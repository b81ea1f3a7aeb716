// The slots are judged, and the index of an accepted image is written.
ghost use Rattle.std.specs.Prelude.{◌≡◌, ◌+◌, ◌<◌, ◌^◌, length, replicate};
ghost use Rattle.index.specs.Chained.{last_of};
ghost use Rattle.index.specs.inner.Build.{build, place_in, unbuilt, Ordered};
ghost use Rattle.index.specs.Index.{index_of, with_counts};
ghost use Rattle.recovery.specs.inner.Judge.{Ready, Judgeable, Left, answer_by};
ghost use Rattle.recovery.specs.inner.Report.{RecoveredWith};

use index::State;
use index_write_code::build::chain_up;
use recovery::{Invalidations, RecoverAnswer, Recovered, RecoveryReport};
use recovery_judge_code::judging::judge_slots;
use recovery_judge_code::settling::no_invalidations;

// The last slot of the order, 0 where there is none.
fn last_of(order: &[u32]) -> u32
    ensures { result ≡ last_of order.now }
{
    order.last().copied().unwrap_or(0)
}

// Heads and next become the chains of the order, each slot in the chain that places has for it; the state beside them
// is returned.
fn rebuild(
    heads: &mut [u32],
    next: &mut [u32],
    order: &[u32],
    places: &[u32],
    live: u32,
    top: u64,
) -> State
    requires { Ordered heads.old next.old order.now places.now × (top < 2 ^ 63) }
    ensures { index_of heads.new next.new result
        ≡ with_counts (build (place_in places.now) (unbuilt (replicate (length heads.old) 0) (replicate (length next.old) 0))
        order.now) live (top + 1) (last_of order.now) }
{
    heads.fill(0);
    next.fill(0);
    let built = chain_up(heads, next, order, places);
    State {
        live,
        version: top + 1,
        newest: last_of(order),
        ..built
    }
}

// The index is written unless a refusal was found. The state is that of the index, or of no use.
fn rebuild_accepted(
    heads: &mut [u32],
    next: &mut [u32],
    order: &[u32],
    places: &[u32],
    fault: u32,
    live: u32,
    top: u64,
) -> State
    requires { fault ≡ 0 → Ordered heads.old next.old order.now places.now × (top < 2 ^ 63) }
    ensures { Left fault heads.old next.old order.now places.now live top heads.new
        next.new result }
{
    if fault != 0 {
        return State {
            first: 0,
            last: 0,
            live: 0,
            version: 0,
            newest: 0,
        };
    }
    rebuild(heads, next, order, places, live, top)
}

// The state and the invalidating stores, or the refusal with the slot that it names and no stores.
fn recover_answer(
    fault: u32,
    slot: u32,
    state: State,
    invalidations: Invalidations,
) -> RecoverAnswer
    ensures { result ≡ answer_by fault slot state invalidations }
{
    if fault == 0 {
        return RecoverAnswer {
            recovered: Recovered::Rebuilt(state),
            invalidations,
        };
    }
    RecoverAnswer {
        recovered: Recovered::Refused {
            number: fault,
            slot,
        },
        invalidations: no_invalidations(),
    }
}

// Recovers with the lent scratch lists.
pub fn recover_with(
    image: &[u8],
    l: usize,
    heads: &mut [u32],
    next: &mut [u32],
    n: usize,
    ranks: &mut [u64],
    lows: &mut [u64],
    highs: &mut [u64],
    places: &mut [u32],
    order: &mut [u32],
    by_key: &mut [u32],
    scratch: &mut [u32],
) -> RecoveryReport
    requires ready { Ready image.now l heads.old next.old n
        × Judgeable image.now l ranks.old lows.old highs.old places.old order.old by_key.old scratch.old n (length heads.old) }
    ensures result { RecoveredWith l image.now heads.old next.old heads.new next.new result }
{
    let judged = judge_slots(
        image,
        l,
        n,
        heads.len(),
        ranks,
        lows,
        highs,
        places,
        order,
        by_key,
        scratch,
    );
    let fault = judged.fault;
    let state = rebuild_accepted(heads, next, order, places, fault, judged.live, judged.top);
    let invalidations = judged.invalidations;
    let classes = judged.classes;
    RecoveryReport {
        answer: recover_answer(fault, judged.slot, state, invalidations),
        classes,
    }
}
