// The input byte by byte, and the output in a lent slice.
ghost use Rattle.std.specs.Prelude.{◌≡◌};
ghost use Rattle.session.specs.Stream.{stream_end, at_start, with_byte, answer_result, byte_result, end_result};
ghost use Rattle.session.specs.Step.{step_result};

use session::{Progress, Stepped};
use session_code::start::empty_session;
use session_code::step::step;
use text::Parse;
use text_code::input::{feed, finish};
use text_code::output::render;

// Before the first byte.
pub fn open_stream() -> Progress
    ensures stream { result ≡ at_start }
{
    Progress {
        parse: Parse::Start,
        begun: false,
        session: empty_session(),
        at: 0,
    }
}

// A line ends: it is carried out, and its answer is stored.
fn answer_line(
    s: Progress,
    image: &mut [u8],
    heads: &mut [u32],
    next: &mut [u32],
    out: &mut [u8],
) -> Progress
    ensures stream { stream_end result image.new heads.new next.new out.new ≡
        answer_result step_result s image.old heads.old next.old out.old }
{
    let Stepped { reply, session } = step(finish(s.parse), s.session, image, heads, next);
    Progress {
        parse: Parse::Start,
        begun: false,
        session,
        at: render(reply, out, s.at),
    }
}

// One more byte of a line.
pub fn add_byte(s: Progress, byte: u8) -> Progress
    ensures stream { result ≡ with_byte s byte }
{
    Progress {
        parse: feed(s.parse, byte),
        begun: true,
        ..s
    }
}

// One more byte of the input. An answer is stored where at least 64 bytes of out are left.
pub fn take_byte(
    s: Progress,
    byte: u8,
    image: &mut [u8],
    heads: &mut [u32],
    next: &mut [u32],
    out: &mut [u8],
) -> Progress
    ensures stream { stream_end result image.new heads.new next.new out.new ≡
        byte_result step_result s byte image.old heads.old next.old out.old }
{
    if byte == b'\n' {
        return answer_line(s, image, heads, next, out);
    }
    add_byte(s, byte)
}

// The end of the input: a last line may lack its end.
pub fn end_input(
    s: Progress,
    image: &mut [u8],
    heads: &mut [u32],
    next: &mut [u32],
    out: &mut [u8],
) -> Progress
    ensures stream { stream_end result image.new heads.new next.new out.new ≡
        end_result step_result s image.old heads.old next.old out.old }
{
    if s.begun {
        return answer_line(s, image, heads, next, out);
    }
    s
}
