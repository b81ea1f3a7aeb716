// The log's recovery.
ghost use Rattle.std.specs.Prelude.{◌≡◌};
ghost use Rattle.message_log.specs.LogOutcome.{log_answer, log_end};
ghost use Rattle.message_log.specs.Recover.{log_recover_result};

use log_cell_code::cells::{check_area, highest_number};
use log_stores_code::filling::check_room;
use log_stores_code::invalidation::{count_invalidations, fill_invalidations};
use message_log::LogStored;
use refusals::Refusal;

// Recovers the log: the highest complete number and the count of the stores, which fill the front of the lists; or the
// refusal, which changes nothing.
pub fn recover_log(area: &[u8], at: &mut [u32], value: &mut [u64]) -> Result<LogStored, Refusal>
    ensures result { log_end (log_answer result) at.new value.new
        ≡ log_recover_result area.now at.old value.old }
{
    let k = check_area(area)?;
    let top = highest_number(area, k);
    let count = count_invalidations(area, k, top);
    check_room(count, at.len(), value.len())?;
    fill_invalidations(area, at, value, k, top);
    Ok(LogStored { number: top, count })
}
