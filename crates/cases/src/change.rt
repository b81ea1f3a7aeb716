// The calls that hand out stores: insert, replace and remove, and the steps of the book.
use crate::line::Change;
use crate::quantities::Moved;
use crate::set::Set;
use book_code::{BookChange, BookOutcome, acknowledge, fill, new, withdraw};
use orderset::{Outcome, State, insert, remove, replace};
use std::io::Stdout;

// The state after a call of the set, whose answer is printed.
fn changed(stdout: Stdout, answer: orderset::Change) -> State {
    show::outcome(stdout, answer.outcome);
    answer.state
}

// The state after a step, whose answer is printed.
fn stepped(stdout: Stdout, answer: BookChange) -> State {
    let outcome = match answer.outcome {
        BookOutcome::Stored { slot, version } => Outcome::Stored { slot, version },
        BookOutcome::Already { slot, version } => {
            show::text(stdout, b" already");
            Outcome::Stored { slot, version }
        }
        BookOutcome::Refused(number) => Outcome::Refused(number),
    };
    show::outcome(stdout, outcome);
    answer.state
}

impl Set {
    // The state after the call, whose answer is printed.
    fn changed(&mut self, stdout: Stdout, change: Change) -> State {
        let lent = self.lent();
        let state = self.state;
        let image = &self.image[..lent.image];
        let heads = &mut self.heads[..];
        let heads = &mut heads[..lent.heads];
        let next = &mut self.next[..];
        let next = &mut next[..lent.next];
        let at = &mut self.stores.at;
        let words = &mut self.stores.value;
        match change {
            Change::Insert { key, length, byte } => {
                let value = &[byte; 81][..length.min(81)];
                changed(
                    stdout,
                    insert(image, heads, next, state, key, value, at, words),
                )
            }
            Change::Replace { key, length, byte } => {
                let value = &[byte; 81][..length.min(81)];
                changed(
                    stdout,
                    replace(image, heads, next, state, key, value, at, words),
                )
            }
            Change::Remove { key } => {
                changed(stdout, remove(image, heads, next, state, key, at, words))
            }
            Change::New { key, quantity } => {
                stepped(
                    stdout,
                    new(image, heads, next, state, key, quantity, at, words),
                )
            }
            Change::Acknowledge { key } => {
                stepped(
                    stdout,
                    acknowledge(image, heads, next, state, key, at, words),
                )
            }
            Change::Fill { key, quantity } => {
                stepped(
                    stdout,
                    fill(image, heads, next, state, key, quantity, at, words),
                )
            }
            Change::Withdraw { key } => {
                stepped(stdout, withdraw(image, heads, next, state, key, at, words))
            }
            Change::Unknown => {
                show::refused(stdout, 0);
                state
            }
        }
    }

    // What a step is to move; that of a withdrawal is what is open before it.
    fn moved_by(&self, change: Change) -> Option<Moved> {
        match change {
            Change::New { quantity, .. } => Some(Moved::Ordered(quantity)),
            Change::Fill { quantity, .. } => Some(Moved::Filled(quantity)),
            Change::Withdraw { key } => Some(Moved::Withdrawn(self.open_of(key))),
            _ => None,
        }
    }

    pub fn change(&mut self, stdout: Stdout, change: Change) {
        let moved = self.moved_by(change);
        let state = self.changed(stdout, change);
        show::state(stdout, state);
        self.show_index(stdout);
        // Where stores were handed out, the next version is another.
        self.book.waiting = moved.filter(|_| state.version != self.state.version);
        self.state = state;
    }
}
