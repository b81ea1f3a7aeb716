// The calls on the image without a key: format, recover and the plays.
use crate::set::Set;
use orderset::{Recovered, Refusal, format, play, play_list, recover, return_code};
use std::io::Stdout;
use words_code::read_word;

// A play's answer, and how many bytes of the two images differ: counted in a loop, since a chain of filter and count over
// both images takes twice the instructions.
fn show_played(stdout: Stdout, answer: Result<(), Refusal>, before: &[u8; 640], image: &[u8; 640]) {
    let answer = return_code(answer);
    let mut changed: usize = 0;
    for i in 0..640 {
        if before[i] != image[i] {
            changed += 1;
        }
    }
    let _ = print!(stdout; " {answer} changed {changed}");
}

impl Set {
    pub fn format(&mut self, stdout: Stdout) {
        let lent = self.lent();
        show::formatted(stdout, format(&mut self.image[..lent.image], 1));
    }

    pub fn recover(&mut self, stdout: Stdout) {
        let lent = self.lent();
        let heads = &mut self.heads[..];
        let next = &mut self.next[..];
        let answer = recover(
            &self.image[..lent.image],
            &mut heads[..lent.heads],
            &mut next[..lent.next],
        );
        show::recovered(stdout, answer.recovered);
        show::invalidations(stdout, answer.invalidations);
        self.show_index(stdout);
        if let Recovered::Rebuilt(state) = answer.recovered {
            self.state = state;
            self.invalidations = answer.invalidations;
        }
    }

    // The play of so many of the invalidating stores.
    pub fn open(&mut self, stdout: Stdout, count: usize) {
        let before = self.image;
        let lent = self.lent();
        let count = count.min(self.invalidations.count as usize);
        let stores = self.invalidations;
        let at = stores.at.get(..count).unwrap_or(&[]);
        let value = stores.value.get(..count).unwrap_or(&[]);
        let answer = play_list(&mut self.image[..lent.image], at, value);
        show_played(stdout, answer, &before, &self.image);
    }

    pub fn play(&mut self, stdout: Stdout, first: usize, second: usize) {
        let before = self.image;
        let lent = self.lent();
        let stores = self.stores;
        let answer = play(&mut self.image[..lent.image], stores, first, second);
        show_played(stdout, answer, &before, &self.image);
        if answer.is_ok() {
            self.book.play(first >= 8 && second >= 8);
        }
    }

    pub fn list(&mut self, stdout: Stdout, words: [u32; 2], values: usize) {
        let lent = self.lent();
        let value = [513, u64::MAX];
        let answer = play_list(
            &mut self.image[..lent.image],
            &words,
            &value[..values.min(2)],
        );
        show::number(stdout, u64::from(return_code(answer)));
    }

    pub fn show_word(&self, stdout: Stdout, place: usize) {
        let word = if place < 80 {
            read_word(&self.image, place)
        } else {
            0
        };
        show::number(stdout, word);
    }
}
