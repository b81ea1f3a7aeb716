// Lines of progress on standard error.
use std::time::Clock;

// The time in seconds.
pub fn seconds(clock: &impl Clock) -> u64 {
    clock.since_1970().map_or(0, |t| t.as_secs())
}

// A count, and what is counted.
pub fn counted(err: &impl Eprint, n: u64, what: &str) {
    let _ = eprint!(err; "{n}{what}");
}
