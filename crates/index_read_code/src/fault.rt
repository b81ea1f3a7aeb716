// The refusals that go by the index and the state.
ghost use Rattle.std.specs.Prelude.{◌≡◌, ◌+◌, leb};
ghost use Rattle.prelude.specs.Refusal.{refuse_if};
ghost use Rattle.index.specs.Walk.{chain_fault};
ghost use Rattle.index.specs.Change.{key_fault, inserts_of};
ghost use Rattle.index.specs.Allocation.{ends_fault};

use index::{Found, Mode};

// 11 by the key's chain, else 0.
#[tactic(auto, unfolding(index::specs::Walk::chain_fault))]
pub fn chain_fault(found: Found) -> u32
    ensures result { result ≡ chain_fault found }
{
    match found {
        Found::At { .. } | Found::Missing { .. } => 0,
        Found::BadChain => 11,
    }
}

// 20 for an insert of a held key, 21 for a replace of one that is not held, else 0.
pub fn key_fault(mode: Mode, held: bool) -> u32
    ensures result { result ≡ key_fault mode held }
{
    match mode {
        Mode::Insert => {
            if held {
                return 20;
            }
            0
        }
        Mode::Replace => {
            if held {
                return 0;
            }
            21
        }
    }
}

// How many keys a write inserts.
pub fn inserts_of(mode: Mode) -> u32
    ensures result { result ≡ inserts_of mode }
{
    match mode {
        Mode::Insert => 1,
        Mode::Replace => 0,
    }
}

// 11 by the ends of the reuse chain, else 0.
pub fn ends_fault(n: u32, first: u32, last: u32) -> u32
    ensures result { result ≡ ends_fault n first last }
{
    if first == 0 {
        return 11;
    }
    if n < first {
        return 11;
    }
    if last == 0 {
        return 11;
    }
    if n < last {
        return 11;
    }
    0
}

// 28 where by the live count no spare slot would be left after so many inserts and removes, else 0.
pub fn live_fault(n: u32, live: u32, inserts: u32, removes: u32) -> u32
    ensures result { result ≡ refuse_if (leb (n + removes) (live + inserts)) 28 0 }
{
    if n as u64 + removes as u64 <= live as u64 + inserts as u64 {
        return 28;
    }
    0
}
