// The state as lent numbers: first, last, live count and newest slot of 32 bits, and the next version of 64.
ghost use Rattle.std.specs.Prelude.{◌≡◌};
ghost use Rattle.exports.specs.State.{state_from};

use orderset::State;

// The state in the lent numbers.
pub fn state_from(state: &[u32; 4], version: &[u64; 1]) -> State
    ensures result { result ≡ state_from state.now version.now }
{
    State {
        first: state[0],
        last: state[1],
        live: state[2],
        newest: state[3],
        version: version[0],
    }
}

// The lent numbers become those of the state.
pub fn keep_state(after: State, state: &mut [u32; 4], version: &mut [u64; 1])
    ensures result { state_from state.new version.new ≡ after }
{
    *state = [after.first, after.last, after.live, after.newest];
    *version = [after.version];
}
