// A plan is carried out: at most one call that writes.
ghost use Rattle.std.specs.Prelude.{◌≡◌, List, ℕ};
ghost use Rattle.interface.specs.Set.{layout_number, key_with, zipped, change_says, change_end, index_of};
ghost use Rattle.book.specs.Steps.{book_says, book_end, book_buffers_after, change_answers, as_change};
ghost use Rattle.book.specs.inner.Courses.{plan_says, course_result};

use book::{BookChange, BookOutcome, Plan};
use book_plan_code::orders::order_bytes;
use orderset::layouts::{remove_in_layout, write_in_layout};
use orderset::{Change, Outcome, State};

// A step's answer by the answer of its call; no step makes the call of a key that is not held.
fn outcome_of(outcome: Outcome) -> BookOutcome
    ensures { book_says result ≡ change_answers (change_says outcome) }
{
    match outcome {
        Outcome::Stored { slot, version } => BookOutcome::Stored { slot, version },
        Outcome::Absent => BookOutcome::Refused(18),
        Outcome::Refused(number) => BookOutcome::Refused(number),
    }
}

// What a step gives back by what its call gave back.
fn by_change(change: Change) -> BookChange
    ensures { (at value heads next : List ℕ) → book_end result at value heads next ≡ as_change (change_end change at value heads next) }
{
    BookChange {
        outcome: outcome_of(change.outcome),
        state: change.state,
    }
}

// Carries a plan out, in either layout: with `own` by the calls for the owner of the index.
pub fn carry_out_plan(
    image: &[u8],
    wide: bool,
    heads: &mut [u32],
    next: &mut [u32],
    state: State,
    low: u64,
    high: u64,
    plan: Plan,
    at: &mut [u32; 16],
    words: &mut [u64; 16],
    own: bool,
) -> BookChange
    ensures result { book_end result at.new words.new heads.new next.new
        ≡ book_buffers_after (zipped at.old words.old)
        (course_result own (layout_number wide) image.now (index_of heads.old next.old state) (key_with low high)
        (plan_says plan)) }
{
    match plan {
        Plan::Write { mode, order } => {
            let bytes = order_bytes(order);
            by_change(write_in_layout(
                image, wide, heads, next, state, mode, low, high, &bytes, at, words, own,
            ))
        }
        Plan::Remove => by_change(remove_in_layout(
            image, wide, heads, next, state, low, high, at, words, own,
        )),
        Plan::Already { slot, version } => BookChange {
            outcome: BookOutcome::Already { slot, version },
            state,
        },
        Plan::Refused(number) => BookChange {
            outcome: BookOutcome::Refused(number),
            state,
        },
    }
}
