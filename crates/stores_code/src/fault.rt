// What play refuses.
ghost use Rattle.std.specs.Prelude.{◌≡◌, not, ◌+◌, ◌*◌, ◌≤◌, ◌<◌, ◌^◌, eqb, ltb, length, get_or};
ghost use Rattle.prelude.specs.Range.{any_of};
ghost use Rattle.refusals.specs.Number.{fault_in};
ghost use Rattle.stores.specs.Play.{half_fault, halves_fault, play_fault, list_fault};

use layout_code::header::slot_count;
use refusals::Refusal;

// A word number as an index.
fn as_index(w: u32) -> usize
    ensures { (result ≡ w) × (result < 2 ^ 32) }
{
    w as usize
}

// Is one of the eight word numbers from k on out of order?
fn out_of_order(at: &[u32; 16], k: usize, first: usize) -> bool
    requires { (k ≤ 8) × (first < 2 ^ 32) }
    ensures { result ≡ any_of (λ i. not (eqb (get_or at.now (k + i) 0) (first + i))) 0 8 }
{
    let mut i = 0;
    while i < 8 {
        if as_index(at[k + i]) != first + i {
            return true;
        }
        i += 1;
    }
    false
}

// Are the eight stores from k on not those of a line inside len bytes?
fn half_fault(len: usize, at: &[u32; 16], k: usize) -> bool
    requires { k ≤ 8 }
    ensures { result ≡ half_fault len at.now k }
{
    let first = as_index(at[k]);
    if first % 8 != 0 {
        return true;
    }
    if len < 8 * first + 64 {
        return true;
    }
    out_of_order(at, k, first)
}

// The refusal 15, by the two halves.
fn check_halves(len: usize, at: &[u32; 16]) -> Result<(), Refusal>
    ensures { fault_in result ≡ halves_fault len at.now }
{
    if half_fault(len, at, 0) || half_fault(len, at, 8) || at[0] == at[8] {
        return Err(Refusal::BadStores);
    }
    Ok(())
}

// The refusals 1, 14 and 15, by what play is given.
pub fn check_play(len: usize, at: &[u32; 16], a: usize, b: usize) -> Result<(), Refusal>
    ensures result { fault_in result ≡ play_fault len at.now a b }
{
    if slot_count(len) == 0 {
        return Err(Refusal::BadImageLength);
    }
    if 8 < a || 8 < b {
        return Err(Refusal::CountTooHigh);
    }
    check_halves(len, at)
}

// Is one of the words outside len bytes?
fn any_outside(len: usize, at: &[u32]) -> bool
    ensures { result ≡ any_of (λ i. ltb len (8 * get_or at.now i 0 + 8)) 0 (length at.now) }
{
    let mut i = 0;
    while i < at.len() {
        let w = at[i] as usize;
        if len < 8 * w + 8 {
            return true;
        }
        i += 1;
    }
    false
}

// The refusal 15, by a list of stores.
pub fn check_list(len: usize, at: &[u32], values: usize) -> Result<(), Refusal>
    ensures result { fault_in result ≡ list_fault len at.now values }
{
    if at.len() != values || any_outside(len, at) {
        return Err(Refusal::BadStores);
    }
    Ok(())
}
