// Append, append_after, recover and read.
ghost use Rattle.std.specs.Prelude.{◌≡◌};
ghost use Rattle.message_log.specs.Append.{append_result};
ghost use Rattle.message_log.specs.AppendAfter.{append_after_result};
ghost use Rattle.message_log.specs.Recover.{log_recover_result};
ghost use Rattle.message_log.specs.Read.{part_result};
ghost use Rattle.log_exports.specs.Call.{hand_left, hand_call, part_left, part_call};

use log_code::{LogStored, Part, append, append_after, find, recover_log};

// The message is appended; the answer is its number and the count of its stores, which fill the front of the lists and
// are to be made by the caller.
#[unsafe(no_mangle)]
pub extern "C" fn orderset_proved_log_append(
    area: &[u8],
    message: &[u8],
    at: &mut [u32],
    value: &mut [u64],
    answer: &mut [u64; 2],
) -> u32
    ensures result { hand_left result answer.new at.new value.new
        ≡ hand_call (append_result area.now message.now at.old value.old) answer.old }
{
    match append(area, message, at, value) {
        Ok(LogStored { number, count }) => {
            *answer = [number, count as u64];
            0
        }
        Err(refusal) => refusal.code(),
    }
}

// The same after the lent number, which may be any: no cell is looked through for the highest one.
#[unsafe(no_mangle)]
pub extern "C" fn orderset_proved_log_append_after(
    area: &[u8],
    last: u64,
    message: &[u8],
    at: &mut [u32],
    value: &mut [u64],
    answer: &mut [u64; 2],
) -> u32
    ensures result { hand_left result answer.new at.new value.new
        ≡ hand_call (append_after_result area.now last message.now at.old value.old) answer.old }
{
    match append_after(area, last, message, at, value) {
        Ok(stored) => {
            *answer = [stored.number, stored.count as u64];
            0
        }
        Err(refusal) => refusal.code(),
    }
}

// The log is recovered; the answer is the highest complete number and the count of the stores, as above.
#[unsafe(no_mangle)]
pub extern "C" fn orderset_proved_log_recover(
    area: &[u8],
    at: &mut [u32],
    value: &mut [u64],
    answer: &mut [u64; 2],
) -> u32
    ensures result { hand_left result answer.new at.new value.new
        ≡ hand_call (log_recover_result area.now at.old value.old) answer.old }
{
    match recover_log(area, at, value) {
        Ok(LogStored { number: top, count }) => {
            *answer = [top, count as u64];
            0
        }
        Err(fault) => fault.code(),
    }
}

// The message with this number; the answer is the byte of the area at which it starts and its length.
#[unsafe(no_mangle)]
pub extern "C" fn orderset_proved_log_read(area: &[u8], number: u64, answer: &mut [u64; 2]) -> u32
    ensures result { part_left result answer.new ≡ part_call (part_result area.now number) answer.old }
{
    match find(area, number) {
        Ok(Part { start, size }) => {
            *answer = [start as u64, size as u64];
            0
        }
        Err(refusal) => refusal.code(),
    }
}
