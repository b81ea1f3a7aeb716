// The set that the lines work on: an image of at most four slots, its index of at most two heads, its state, the stores
// handed out last and the invalidating stores. Any number of it may be set to any other, and a call may be lent less
// than all of it.
ghost use Rattle.std.specs.Prelude.{◌≤◌};

use crate::line::{Fronts, Part};
use crate::quantities::Book;
use orderset::{Invalidations, State, Stores};
use std::io::Stdout;

#[derive(Clone, Copy)]
pub struct Set {
    pub image: [u8; 640],
    pub heads: [u32; 2],
    pub next: [u32; 5],
    pub stores: Stores,
    pub invalidations: Invalidations,
    pub state: State,
    pub lent: Fronts,
    pub book: Book,
}

impl Set {
    // Every byte, index number and store is 9, and nothing is lent.
    pub fn new() -> Set {
        Set {
            image: [9; 640],
            heads: [9; 2],
            next: [9; 5],
            stores: Stores {
                at: [9; 16],
                value: [9; 16],
            },
            invalidations: Invalidations {
                count: 0,
                at: [0; 8],
                value: [0; 8],
            },
            state: State {
                first: 0,
                last: 0,
                live: 0,
                newest: 0,
                version: 0,
            },
            lent: Fronts {
                image: 0,
                heads: 0,
                next: 0,
            },
            book: Book {
                ordered: 0,
                filled: 0,
                withdrawn: 0,
                waiting: None,
            },
        }
    }

    // What is lent: no more than there is.
    pub fn lent(&self) -> Fronts
        ensures image { result.image ≤ 640 }
        ensures heads { result.heads ≤ 2 }
        ensures next { result.next ≤ 5 }
    {
        Fronts {
            image: self.lent.image.min(640),
            heads: self.lent.heads.min(2),
            next: self.lent.next.min(5),
        }
    }

    // Sets a part; a byte or a store that is not there stays away.
    pub fn put(&mut self, part: Part) {
        match part {
            Part::Byte { place, byte } => {
                if let Some(old) = self.image.get_mut(place) {
                    *old = byte;
                }
            }
            Part::Lend(fronts) => self.lent = fronts,
            Part::Index { head, next } => {
                let [first, second, third] = next;
                self.heads = [head, 0];
                self.next = [0, first, second, third, 0];
            }
            Part::State(state) => self.state = state,
            Part::Store { number, word } => {
                if let Some(old) = self.stores.at.get_mut(number) {
                    *old = word;
                }
            }
        }
    }

    pub fn show_index(&self, stdout: Stdout) {
        show::text(stdout, b" heads");
        show::numbers(stdout, &self.heads);
        show::text(stdout, b" next");
        show::numbers(stdout, &self.next);
    }

    pub fn show_stores(&self, stdout: Stdout) {
        show::numbers(stdout, &self.stores.at);
        show::text(stdout, b"\n ");
        show::numbers(stdout, &self.stores.value);
    }
}
