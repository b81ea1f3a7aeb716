// The session before its first accepted n.
ghost use Rattle.std.specs.Prelude.{◌≡◌};
ghost use Rattle.session.specs.Step.{no_set};

use orderset::State;
use session::Session;

// A session before an accepted n.
pub fn empty_session() -> Session
    ensures result { result ≡ no_set }
{
    Session {
        n: 0,
        state: State {
            first: 0,
            last: 0,
            live: 0,
            newest: 0,
            version: 0,
        },
        waiting: None,
    }
}
