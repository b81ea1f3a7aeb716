// Append: the plan, the stores and the answer.
ghost use Rattle.std.specs.Prelude.{◌≡◌};
ghost use Rattle.message_log.specs.LogOutcome.{log_answer, log_end};
ghost use Rattle.message_log.specs.Append.{append_result};

use log_stores_code::filling::fill_message;
use log_stores_code::planning::append_plan;
use message_log::LogStored;
use refusals::Refusal;

// Appends a message: its number and the count of its stores, which fill the front of the lists; or the refusal, which
// changes nothing.
pub fn append(
    area: &[u8],
    message: &[u8],
    at: &mut [u32],
    value: &mut [u64],
) -> Result<LogStored, Refusal>
    ensures result { log_end (log_answer result) at.new value.new
        ≡ append_result area.now message.now at.old value.old }
{
    let plan = append_plan(area, message, at.len(), value.len())?;
    fill_message(area, message, at, value, plan.cell, plan.number, plan.pairs);
    Ok(LogStored {
        number: plan.number,
        count: plan.count,
    })
}
