// What recovery gives back, in lent numbers.
ghost use Rattle.std.specs.Prelude.{◌≡◌, List, ℕ};
ghost use Rattle.interface.specs.Set.{recover_end};
ghost use Rattle.exports.specs.State.{state_from};
ghost use Rattle.exports.specs.Invalidation.{invalidations_from};
ghost use Rattle.exports.specs.Call.{recover_left, recover_call};

use exports_code::refusal::refused_with;
use exports_code::state::keep_state;
use orderset::{Invalidations, RecoverAnswer, Recovered};

// The lent numbers become those of the invalidating stores.
fn keep_invalidations(
    invalidations: Invalidations,
    count: &mut [u32; 1],
    at: &mut [u32; 8],
    value: &mut [u64; 8],
)
    ensures { invalidations_from count.new at.new value.new ≡ invalidations }
{
    let words = invalidations.at;
    let values = invalidations.value;
    *count = [invalidations.count];
    *at = words;
    *value = values;
}

// What a recovery gives back goes into the lent numbers. Returned is 0, or the refusal + 2^32 × the slot that it names.
pub fn write_answer_recovered(
    answer: RecoverAnswer,
    state: &mut [u32; 4],
    version: &mut [u64; 1],
    count: &mut [u32; 1],
    at: &mut [u32; 8],
    value: &mut [u64; 8],
) -> u64
    ensures result { (heads next : List ℕ) → recover_left result (state_from state.new version.new)
        (invalidations_from count.new at.new value.new) heads next ≡ recover_call
        (recover_end answer.recovered answer.invalidations heads next) (state_from state.old version.old)
        (invalidations_from count.old at.old value.old) }
{
    let recovered = answer.recovered;
    let invalidations = answer.invalidations;
    match recovered {
        Recovered::Refused { number, slot } => refused_with(number, slot),
        Recovered::Rebuilt(after) => {
            keep_state(after, state, version);
            keep_invalidations(invalidations, count, at, value);
            0
        }
    }
}
