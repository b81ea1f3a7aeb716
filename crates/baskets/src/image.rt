// The calls on the image without a key: format, recover and a look at a word.
use crate::handed::Lines;
use crate::item::Named;
use crate::set::{Fronts, Set};
use orderset::{format, recover};
use std::io::Stdout;
use words_code::read_word;

impl Set {
    pub fn format_set(&mut self, stdout: Stdout, slots: u64, heads: u64) {
        let slots = (slots % 17) as usize;
        self.lent = Fronts {
            image: 128 * (slots + 1),
            heads: (heads as usize).min(3),
            next: slots + 1,
            at: 130,
            value: 130,
        };
        let image = &mut self.image[..];
        show::formatted(stdout, format(&mut image[..128 * (slots + 1)], 1));
        self.basket = Named::default();
    }

    pub fn recover_set(&mut self, stdout: Stdout) {
        let lent = self.lent;
        let heads = &mut self.heads[..];
        let next = &mut self.next[..];
        let answer = recover(
            &self.image[..lent.image],
            &mut heads[..lent.heads],
            &mut next[..lent.next],
        );
        let invalidations = answer.invalidations;
        show::recovered(stdout, answer.recovered);
        show::invalidations(stdout, invalidations);
        let n = (invalidations.count as usize).min(8);
        self.handed.put_front(
            &invalidations.at[..n],
            &invalidations.value[..n],
            Lines::OneStore,
        );
        self.state = show::state_after(answer.recovered, self.state);
        self.show_lent_index(stdout);
    }

    pub fn show_image_word(&self, stdout: Stdout, place: u64) {
        let word = if place < 272 {
            read_word(&self.image, place as usize)
        } else {
            0
        };
        show::number(stdout, word);
    }
}
