// The calls that only read: locate and get.
use crate::set::Set;
use orderset::{GetAnswer, Located, Outcome, get, locate};
use std::io::Stdout;
use words_code::read_word;

fn show_located(stdout: Stdout, located: Located) {
    let outcome = match located {
        Located::At { slot, version } => Outcome::Stored { slot, version },
        Located::Absent => Outcome::Absent,
        Located::Refused(number) => Outcome::Refused(number),
    };
    show::outcome(stdout, outcome);
}

impl Set {
    // Get into these bytes.
    fn get(&self, key: u64, out: &mut [u8]) -> GetAnswer {
        let lent = self.lent();
        get(
            &self.image[..lent.image],
            &self.heads[..lent.heads],
            &self.next[..lent.next],
            key,
            out,
        )
    }

    // What is open of this key's order: its second word less its third.
    pub fn open_of(&self, key: u64) -> u64 {
        let mut out = [9; 80];
        self.get(key, &mut out);
        read_word(&out, 1).saturating_sub(read_word(&out, 2))
    }

    pub fn show_locate_and_get(&self, stdout: Stdout, key: u64, length: usize) {
        let lent = self.lent();
        let answer = locate(
            &self.image[..lent.image],
            &self.heads[..lent.heads],
            &self.next[..lent.next],
            key,
        );
        show_located(stdout, answer.located);
        let mut out = [9; 80];
        let answer = self.get(key, &mut out[..length.min(80)]);
        show::got(stdout, answer.got);
        for place in [0, 1, 2, 9] {
            show::number(stdout, read_word(&out, place));
        }
    }

    pub fn show_total(&self, stdout: Stdout) {
        let open = (1..5).fold(0u64, |sum, key| sum.saturating_add(self.open_of(key)));
        show::numbers(
            stdout,
            &[
                self.book.ordered,
                self.book.filled,
                self.book.withdrawn,
                open,
            ],
        );
    }
}
