// The calls of one key: insert, replace, remove and get.
use crate::handed::Lines;
use crate::item::fill_rising;
use crate::line::KeyLine;
use crate::set::Set;
use orderset::{Action, Mode, Outcome, get, insert, remove, replace};
use std::io::Stdout;
use words_code::read_word;

impl Set {
    pub fn run_single(&mut self, stdout: Stdout, line: KeyLine) {
        let mut at = [0; 16];
        let mut words = [0; 16];
        let mut bytes = [0; 81];
        fill_rising(&mut bytes[..80], line.byte);
        let value = &bytes[..(line.length % 82) as usize];
        let lent = self.lent;
        let state = self.state;
        let image = &self.image[..lent.image];
        let heads = &mut self.heads[..];
        let heads = &mut heads[..lent.heads];
        let next = &mut self.next[..];
        let next = &mut next[..lent.next];
        let change = match line.action {
            Action::Write(Mode::Insert) => {
                insert(
                    image, heads, next, state, line.low, value, &mut at, &mut words,
                )
            }
            Action::Write(Mode::Replace) => {
                replace(
                    image, heads, next, state, line.low, value, &mut at, &mut words,
                )
            }
            Action::Remove => remove(image, heads, next, state, line.low, &mut at, &mut words),
        };
        let n = if matches!(change.outcome, Outcome::Stored { .. }) {
            16
        } else {
            0
        };
        self.handed
            .put_front(&at[..n], &words[..n], Lines::EightStores);
        self.state = change.state;
        show::outcome(stdout, change.outcome);
        show::state(stdout, self.state);
        self.show_lent_index(stdout);
    }

    pub fn show_get(&self, stdout: Stdout, key: u64) {
        let mut value = [0; 80];
        let answer = get(
            &self.image[..self.lent.image],
            &self.heads[..self.lent.heads],
            &self.next[..self.lent.next],
            key,
            &mut value,
        );
        show::got(stdout, answer.got);

        // Four calls: a loop over the four places is no plainer, and needs that each is below ten.
        show::number(stdout, read_word(&value, 0));
        show::number(stdout, read_word(&value, 3));
        show::number(stdout, read_word(&value, 4));
        show::number(stdout, read_word(&value, 9));
    }
}
