// The input of a trace byte by byte, and the output in a lent slice.
ghost use Rattle.std.specs.Prelude.{◌≡◌, length};
ghost use Rattle.session.specs.Stream.{stream_end, answer_result, byte_result, end_result};
ghost use Rattle.trace.specs.Step.{trace_result};

use session::{Progress, Stepped};
use session_stream_code::stream::add_byte;
use text::Parse;
use text_code::input::finish;
use text_code::output::render;
use trace_step_code::step::trace_step;

// A line ends: it is carried out, and its counts are stored.
fn trace_answer(
    s: Progress,
    image: &mut [u8],
    heads: &mut [u32],
    next: &mut [u32],
    copy: &mut [u8],
    later: &mut [u8],
    out: &mut [u8],
) -> Progress
    ensures stream { stream_end result image.new heads.new next.new out.new ≡
        answer_result (trace_result (length copy.old) (length later.old))
        s image.old heads.old next.old out.old }
{
    let Stepped { reply, session } = trace_step(
        finish(s.parse),
        s.session,
        image,
        heads,
        next,
        copy,
        later,
    );
    Progress {
        parse: Parse::Start,
        begun: false,
        session,
        at: render(reply, out, s.at),
    }
}

// One more byte of the input. A line of output is stored where at least 64 bytes of out are left.
pub fn trace_byte(
    s: Progress,
    byte: u8,
    image: &mut [u8],
    heads: &mut [u32],
    next: &mut [u32],
    copy: &mut [u8],
    later: &mut [u8],
    out: &mut [u8],
) -> Progress
    ensures stream { stream_end result image.new heads.new next.new out.new ≡
        byte_result (trace_result (length copy.old) (length later.old))
        s byte image.old heads.old next.old out.old }
{
    if byte == b'\n' {
        return trace_answer(s, image, heads, next, copy, later, out);
    }
    add_byte(s, byte)
}

// The end of the input: a last line may lack its end.
pub fn trace_end(
    s: Progress,
    image: &mut [u8],
    heads: &mut [u32],
    next: &mut [u32],
    copy: &mut [u8],
    later: &mut [u8],
    out: &mut [u8],
) -> Progress
    ensures stream { stream_end result image.new heads.new next.new out.new ≡
        end_result (trace_result (length copy.old) (length later.old))
        s image.old heads.old next.old out.old }
{
    if s.begun {
        return trace_answer(s, image, heads, next, copy, later, out);
    }
    s
}
