// An append and a recovery whose stores are made in arrays.
ghost use Rattle.std.specs.Prelude.{◌≡◌};
ghost use Rattle.words.specs.Word.{word};
ghost use Rattle.message_log.specs.Area.{cells_in};
ghost use Rattle.message_log.specs.Message.{highest};
ghost use Rattle.message_log.specs.Append.{next_message, append_stores, append_fault};
ghost use Rattle.message_log.specs.Recover.{recovery_stores, log_recover_fault};
ghost use Rattle.message_log.specs.inner.List.{stored_count, StoresMade};

use log_code::{append, recover_log};
use message_log::{LogMade, LogStored};
use refusals::Refusal;
use words_code::lesser;

// How many stores are handed out.
fn stored_count(answer: Result<LogStored, Refusal>) -> usize
    ensures { result ≡ stored_count answer }
{
    match answer {
        Ok(stored) => stored.count,
        Err(_) => 0,
    }
}

// An append for a list with this room.
pub fn append_made(area: &[u8], message: &[u8], room: usize) -> LogMade<56>
    ensures result { StoresMade 56 room (append_fault area.now message.now room room)
        (next_message (cells_in area.now) (word area.now))
        (append_stores (cells_in area.now) (word area.now) message.now) result.answer result.stored result.at result.value }
{
    let mut at = [0u32; 56];
    let mut value = [0u64; 56];
    let n = lesser(56, room);
    let answer = append(area, message, &mut at[..n], &mut value[..n]);
    let stored = stored_count(answer);
    LogMade {
        answer,
        stored,
        at,
        value,
    }
}

// A recovery for a list with this room.
pub fn recovery_made(area: &[u8], room: usize) -> LogMade<1000>
    ensures result { StoresMade 1000 room (log_recover_fault area.now room room)
        (highest (cells_in area.now) (word area.now)) (recovery_stores (cells_in area.now) (word area.now))
        result.answer result.stored result.at result.value }
{
    let mut at = [0u32; 1000];
    let mut value = [0u64; 1000];
    let n = lesser(1000, room);
    let answer = recover_log(area, &mut at[..n], &mut value[..n]);
    let stored = stored_count(answer);
    LogMade {
        answer,
        stored,
        at,
        value,
    }
}
