// A line of a trace on an image and an index of the set's size: the session's line, and the counts of the cuts of a
// call that stores.
ghost use Rattle.std.specs.Prelude.{◌≡◌, length};
ghost use Rattle.interface.specs.Set.{zipped, change_end, change_says};
ghost use Rattle.text.specs.inner.Output.{reply_says};
ghost use Rattle.text.specs.Output.{nothing};
ghost use Rattle.text.specs.declared.Line.TheVariants.{Write, Remove};
ghost use Rattle.session.specs.inner.Step.{step_end};
ghost use Rattle.session.specs.Step.{change_step, line_step};
ghost use Rattle.trace.specs.Step.{tried_counts, answer_counts, change_counts, line_counts, printing};

use orderset::{Change, CutCounts, Outcome, Stores, count_cuts, remove};
use session::{Session, Stepped};
use session_code::lines::{carry_change, write_key};
use session_code::step::carry_line;
use text::{Line, Reply};

// The cuts of these stores are tried on the image.
fn try_cuts(image: &[u8], stores: Stores, copy: &mut [u8], later: &mut [u8]) -> Reply
    ensures counts { reply_says result ≡
        tried_counts image.now (zipped stores.at stores.value) (length copy.old) (length later.old) }
{
    match count_cuts(image, stores, copy, later) {
        CutCounts::Counted { earlier, later: n } => Reply::Counted { earlier, later: n },
        CutCounts::Refused(_) => Reply::Nothing,
    }
}

// The cuts of a call that stores are tried on the image before it.
fn try_change(
    change: Change,
    stores: Stores,
    image: &[u8],
    copy: &mut [u8],
    later: &mut [u8],
) -> Reply
    ensures counts { reply_says result ≡
        answer_counts image.now (zipped stores.at stores.value) (length copy.old) (length later.old)
        (change_says change.outcome) }
{
    match change.outcome {
        Outcome::Stored { .. } => try_cuts(image, stores, copy, later),
        Outcome::Absent | Outcome::Refused(_) => Reply::Nothing,
    }
}

// The cuts of a call are tried, and then all its stores are played.
fn trace_change(
    change: Change,
    stores: Stores,
    session: Session,
    image: &mut [u8],
    heads: &mut [u32],
    next: &mut [u32],
    copy: &mut [u8],
    later: &mut [u8],
) -> Stepped
    ensures step { step_end result image.new heads.new next.new ≡
        printing (change_counts image.old (length copy.old) (length later.old)
        (change_end change stores.at stores.value heads.old next.old))
        (change_step session image.old (change_end change stores.at stores.value heads.old next.old)) }
{
    let reply = try_change(change, stores, image, copy, later);
    Stepped {
        reply,
        ..carry_change(change, stores, session, image, heads, next)
    }
}

// `p K W`.
fn trace_write(
    key: u64,
    word: u64,
    session: Session,
    image: &mut [u8],
    heads: &mut [u32],
    next: &mut [u32],
    copy: &mut [u8],
    later: &mut [u8],
) -> Stepped
    ensures step { step_end result image.new heads.new next.new ≡
        printing (line_counts (length copy.old) (length later.old)
        (Write key word) session image.old heads.old next.old)
        (line_step (Write key word) session image.old heads.old next.old) }
{
    let mut at = [0u32; 16];
    let mut value = [0u64; 16];
    let change = write_key(
        image,
        heads,
        next,
        session.state,
        key,
        word,
        &mut at,
        &mut value,
    );
    trace_change(
        change,
        Stores { at, value },
        session,
        image,
        heads,
        next,
        copy,
        later,
    )
}

// `r K`.
fn trace_remove(
    key: u64,
    session: Session,
    image: &mut [u8],
    heads: &mut [u32],
    next: &mut [u32],
    copy: &mut [u8],
    later: &mut [u8],
) -> Stepped
    ensures step { step_end result image.new heads.new next.new ≡
        printing (line_counts (length copy.old) (length later.old)
        (Remove key) session image.old heads.old next.old)
        (line_step (Remove key) session image.old heads.old next.old) }
{
    let mut at = [0u32; 16];
    let mut value = [0u64; 16];
    let change = remove(image, heads, next, session.state, key, &mut at, &mut value);
    trace_change(
        change,
        Stores { at, value },
        session,
        image,
        heads,
        next,
        copy,
        later,
    )
}

// A line that prints nothing, on an image and an index of the set's size.
fn carry_silently(
    line: Line,
    session: Session,
    image: &mut [u8],
    heads: &mut [u32],
    next: &mut [u32],
) -> Stepped
    ensures step { step_end result image.new heads.new next.new ≡
        printing nothing (line_step line session image.old heads.old next.old) }
{
    Stepped {
        reply: Reply::Nothing,
        ..carry_line(line, session, image, heads, next)
    }
}

// A line on an image and an index of the set's size.
pub fn trace_line(
    line: Line,
    session: Session,
    image: &mut [u8],
    heads: &mut [u32],
    next: &mut [u32],
    copy: &mut [u8],
    later: &mut [u8],
) -> Stepped
    ensures step { step_end result image.new heads.new next.new ≡
        printing (line_counts (length copy.old) (length later.old)
        line session image.old heads.old next.old)
        (line_step line session image.old heads.old next.old) }
{
    match line {
        Line::Write { key, word } => {
            trace_write(key, word, session, image, heads, next, copy, later)
        }
        Line::Remove(key) => trace_remove(key, session, image, heads, next, copy, later),
        _ => carry_silently(line, session, image, heads, next),
    }
}
