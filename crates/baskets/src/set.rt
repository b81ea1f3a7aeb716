// The set that the lines work on: an image of at most sixteen slots, its index of at most three heads, its state, two
// lists with the stores handed out last, and the items named for the basket to come. Any number of it may be set to any
// other, and a call may be lent less than all of it.
ghost use Rattle.std.specs.Prelude.{◌≤◌};

use crate::handed::{Handed, Lines};
use crate::item::Named;
use orderset::{State, play_list, return_code};
use std::io::Stdout;

// How many bytes, heads, next numbers and entries of the two lists a call is lent, the first ones of each.
#[derive(Clone, Copy)]
pub struct Fronts {
    pub image: usize,
    pub heads: usize,
    pub next: usize,
    pub at: usize,
    pub value: usize,
    ghost within: { (image ≤ 2176) × (heads ≤ 3) × (next ≤ 17) × (at ≤ 130) × (value ≤ 130) },
}

#[derive(Drop)]
pub struct Set {
    pub image: [u8; 2176],
    pub heads: [u32; 3],
    pub next: [u32; 17],
    pub state: State,
    pub handed: Handed,
    pub basket: Named,
    pub lent: Fronts,
}

// Every byte, index number and entry of the lists is 9, no item is named and nothing is lent.
impl Default for Set {
    fn default() -> Set {
        Set {
            image: [9; 2176],
            heads: [9; 3],
            next: [9; 17],
            state: State {
                first: 0,
                last: 0,
                live: 0,
                newest: 0,
                version: 0,
            },
            handed: Handed {
                at: [9; 130],
                value: [9; 130],
                count: 0,
                lines: Lines::EightStores,
            },
            basket: Named::default(),
            lent: Fronts {
                image: 0,
                heads: 0,
                next: 0,
                at: 0,
                value: 0,
            },
        }
    }
}

impl Set {
    // What is lent of the index.
    pub fn show_lent_index(&self, stdout: Stdout) {
        show::text(stdout, b" heads");
        show::numbers(stdout, &self.heads[..self.lent.heads]);
        show::text(stdout, b" next");
        show::numbers(stdout, &self.next[..self.lent.next]);
    }

    // The stores are played on what is lent of the image; the answer is printed.
    pub fn play_stores_of(&mut self, stdout: Stdout, handed: &Handed) {
        let lent = self.lent;
        let n = handed.count;
        let image = &mut self.image[..];
        let answer = play_list(
            &mut image[..lent.image],
            &handed.at[..n],
            &handed.value[..n],
        );
        show::number(stdout, u64::from(return_code(answer)));
    }
}
