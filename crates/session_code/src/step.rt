// One line of a session is carried out.
ghost use Rattle.std.specs.Prelude.{◌≡◌};
ghost use Rattle.session.specs.inner.Step.{step_end};
ghost use Rattle.session.specs.Step.{waiting_for, line_step, step_result};

use crate::lines::{get_word, make, remove_line, write_line};
use session::{Session, Stepped, WaitingCut};
use session_refusal_code::refusal::{line_fault, slots_for};
use text::{Line, Reply};

// The counts wait for the next accepted p, or r that stores.
fn wait(session: Session, a: u64, b: u64) -> Session
    ensures { result ≡ waiting_for session a b }
{
    Session {
        waiting: Some(WaitingCut {
            a: a as usize,
            b: b as usize,
        }),
        ..session
    }
}

// A line is carried out on an image and an index of the set's size.
pub fn carry_line(
    line: Line,
    session: Session,
    image: &mut [u8],
    heads: &mut [u32],
    next: &mut [u32],
) -> Stepped
    ensures result { step_end result image.new heads.new next.new
        ≡ line_step line session image.old heads.old next.old }
{
    match line {
        Line::New(n) => make(n, session, image, heads, next),
        Line::Write { key, word } => write_line(session, key, word, image, heads, next),
        Line::Remove(key) => remove_line(session, key, image, heads, next),
        Line::Get(key) => Stepped {
            reply: get_word(image, heads, next, key),
            session,
        },
        Line::Cut { a, b } => Stepped {
            reply: Reply::Cut { a, b },
            session: wait(session, a, b),
        },
        Line::Bad => Stepped {
            reply: Reply::Refused(16),
            session,
        },
    }
}

// A line is carried out: the answer and the session after it. A refused line changes nothing.
pub fn step(
    line: Line,
    session: Session,
    image: &mut [u8],
    heads: &mut [u32],
    next: &mut [u32],
) -> Stepped
    ensures result { step_end result image.new heads.new next.new
        ≡ step_result line session image.old heads.old next.old }
{
    let fault = line_fault(line, session, image.len(), heads.len(), next.len());
    if fault != 0 {
        return Stepped {
            reply: Reply::Refused(fault),
            session,
        };
    }
    let m = slots_for(line, session) as usize + 1;
    let bytes = 128 * m;
    carry_line(
        line,
        session,
        &mut image[..bytes],
        &mut heads[..1],
        &mut next[..m],
    )
}
