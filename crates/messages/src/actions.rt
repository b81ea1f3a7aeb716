// The calls of the log, and play.
use crate::lent::Log;
use log_code::{LogStored, append, append_after, read, recover_log};
use orderset::{Refusal, play_list, return_code};
use std::io::Stdout;
use words_code::{padded_word, read_word};

// A message: byte i is byte + i * step.
fn message_of(byte: u64, step: u64) -> [u8; 400] {
    let mut message = [0; 400];
    let mut next = (byte % 256) as u8;
    for b in message.iter_mut() {
        *b = next;
        next = next.wrapping_add((step % 256) as u8);
    }
    message
}

impl Log {
    // A call that hands out stores is lent the fronts; its answer is printed.
    fn hand_out<F: FnOnce(&[u8], &mut [u32], &mut [u64]) -> Result<LogStored, Refusal>>(
        &mut self,
        stdout: Stdout,
        call: F,
    )
        requires { F.IsAlwaysCallable call }
    {
        let lent = self.lent;
        let at = &mut self.at[..];
        let value = &mut self.value[..];
        let answer = call(
            &self.area[..lent.area],
            &mut at[..lent.at],
            &mut value[..lent.value],
        );
        self.count = match answer {
            Ok(LogStored { number, count }) => {
                let _ = print!(stdout; " ok {number} {count}");
                count
            }
            Err(refusal) => {
                show::refused(stdout, refusal.code());
                0
            }
        };
    }

    pub fn append_message(&mut self, stdout: Stdout, length: u64, byte: u64, step: u64) {
        let message = message_of(byte, step);
        let message = &message[..(length % 401) as usize];
        self.hand_out(stdout, |area, at, value| append(area, message, at, value));
    }

    pub fn append_message_after(
        &mut self,
        stdout: Stdout,
        last: u64,
        length: u64,
        byte: u64,
        step: u64,
    ) {
        let message = message_of(byte, step);
        let message = &message[..(length % 401) as usize];
        self.hand_out(
            stdout,
            |area, at, value| append_after(area, last, message, at, value),
        );
    }

    pub fn recover_area(&mut self, stdout: Stdout) {
        self.hand_out(stdout, |area, at, value| recover_log(area, at, value));
    }

    pub fn show_part(&self, stdout: Stdout, number: u64) {
        let part = match read(&self.area[..self.lent.area], number) {
            Ok(part) => part,
            Err(refusal) => {
                show::refused(stdout, refusal.code());
                &[]
            }
        };
        let length = part.len();
        let _ = print!(stdout; " length {length}");
        show_ends(stdout, part);
    }

    pub fn play_log(&mut self, stdout: Stdout) {
        let n = self.count.min(60);
        let lent = self.lent;
        let area = &mut self.area[..];
        let answer = play_list(&mut area[..lent.area], &self.at[..n], &self.value[..n]);
        show::number(stdout, u64::from(return_code(answer)));
    }

    pub fn show_log_stores(&self, stdout: Stdout, count: u64) {
        let n = (count as usize).min(60);
        show::numbers(stdout, &self.at[..n]);
        show::text(stdout, b"\n ");
        show::values(stdout, &self.value[..n]);
    }

    pub fn show_area_word(&self, stdout: Stdout, place: u64) {
        let word = if place < 168 {
            read_word(&self.area, place as usize)
        } else {
            0
        };
        show::number(stdout, word);
    }
}

// The first and the last word of a message.
fn show_ends(stdout: Stdout, part: &[u8]) {
    let n = part.len();
    if n == 0 {
        return;
    }
    show::number(stdout, padded_word(part, 0));
    if n <= 384 {
        show::number(stdout, padded_word(part, (n - 1) / 8));
    }
}
