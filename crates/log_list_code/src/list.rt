// An append and a recovery that fill a lent list of records.
ghost use Rattle.std.specs.Prelude.{◌≡◌};
ghost use Rattle.message_log.specs.LogOutcome.{log_answer, log_list_end};
ghost use Rattle.message_log.specs.Append.{append_list_result};
ghost use Rattle.message_log.specs.Recover.{log_recover_list_result};

use crate::made::{append_made, recovery_made};
use message_log::LogStored;
use refusals::Refusal;
use stores::Store;
use stores_list_code::list::fill_store_list;

// Appends a message: its number and the count of its stores, which fill the front of the lent list; or the refusal,
// which changes nothing.
pub fn append_list(area: &[u8], message: &[u8], list: &mut [Store]) -> Result<LogStored, Refusal>
    ensures result { log_list_end (log_answer result) list.new ≡ append_list_result area.now message.now list.old }
{
    let made = append_made(area, message, list.len());
    fill_store_list(list, &made.at, &made.value, made.stored);
    made.answer
}

// Recovers the log: the highest complete number and the count of the stores, which fill the front of the lent list; or
// the refusal, which changes nothing.
pub fn recover_list(area: &[u8], list: &mut [Store]) -> Result<LogStored, Refusal>
    ensures result { log_list_end (log_answer result) list.new ≡ log_recover_list_result area.now list.old }
{
    let made = recovery_made(area, list.len());
    fill_store_list(list, &made.at, &made.value, made.stored);
    made.answer
}
