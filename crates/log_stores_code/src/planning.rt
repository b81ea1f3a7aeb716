// The plan of an append, which only reads.
ghost use Rattle.std.specs.Prelude.{◌≡◌, ℕ, suc, ◌+◌, ◌*◌, ◌≤◌, length, IfOk};
ghost use Rattle.refusals.specs.Number.{fault_in};
ghost use Rattle.layout.specs.Line.{version_fault};
ghost use Rattle.message_log.specs.Append.{message_fault, append_fault};
ghost use Rattle.message_log.specs.AppendAfter.{append_after_fault};
ghost use Rattle.message_log.specs.inner.Needs.{PayloadPlanned, AppendReady, AppendAfterReady};

use crate::filling::check_room;
use log_cell_code::bit::{differing_word, line_pair, store_count};
use log_cell_code::cells::{check_area, highest_number};
use message_log::{AppendPlan, Payload};
use refusals::Refusal;

// The refusal 29, where a message of this size is empty or over 384 bytes.
fn check_message(size: usize) -> Result<(), Refusal>
    ensures { fault_in result ≡ message_fault size }
{
    match size {
        1..=384 => Ok(()),
        _ => Err(Refusal::BadMessage),
    }
}

// The pairs and the count of stores of the payload lines of a message for cell c, from the last line down.
fn payload_plan(area: &[u8], c: usize, message: &[u8]) -> Payload
    requires { 448 * (c + 1) ≤ length area.now }
    ensures { PayloadPlanned area.now c message.now result.pairs result.count }
{
    let mut pairs: u64 = 0;
    let mut count: usize = 0;
    for i in (0..6).rev() {
        let n = 7 * c + 1 + i;
        let place = differing_word(area, n, message, i);
        pairs = line_pair(area, n, message, i, place) + 1024 * pairs;
        count += store_count(place);
    }
    Payload { pairs, count }
}

// The number above this one; or the refusal 9, where it is not below 2^63.
fn number_after(last: u64) -> Result<u64, Refusal>
    ensures fault { fault_in result ≡ version_fault (suc last) }
    ensures next { IfOk result (λ number. number ≡ suc last) }
{
    if last >= (1 << 63) - 1 {
        return Err(Refusal::Exhausted);
    }
    Ok(last + 1)
}

// The plan of an append after this number, to lists of ats and vals entries; or its refusal.
pub fn append_after_plan(
    area: &[u8],
    last: u64,
    message: &[u8],
    ats: usize,
    vals: usize,
) -> Result<AppendPlan, Refusal>
    ensures fault { fault_in result ≡ append_after_fault area.now last message.now ats vals }
    ensures plan { IfOk result (λ plan. AppendAfterReady area.now last message.now ats vals plan.number plan.cell plan.pairs plan.count) }
{
    let k = check_area(area)?;
    check_message(message.len())?;
    let number = number_after(last)?;
    let cell = (number % (k as u64)) as usize;
    let payload = payload_plan(area, cell, message);
    let count = 8 + payload.count;
    check_room(count, ats, vals)?;
    Ok(AppendPlan {
        number,
        cell,
        pairs: payload.pairs,
        count,
    })
}

// The plan of an append to lists of ats and vals entries: of one after the highest complete number.
pub fn append_plan(
    area: &[u8],
    message: &[u8],
    ats: usize,
    vals: usize,
) -> Result<AppendPlan, Refusal>
    ensures fault { fault_in result ≡ append_fault area.now message.now ats vals }
    ensures plan { IfOk result (λ plan. AppendReady area.now message.now ats vals plan.number plan.cell plan.pairs plan.count) }
{
    let k = check_area(area)?;
    append_after_plan(area, highest_number(area, k), message, ats, vals)
}
