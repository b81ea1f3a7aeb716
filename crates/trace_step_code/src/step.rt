// One line of a trace: it is judged, and carried out on the front of the image and the index.
ghost use Rattle.std.specs.Prelude.{◌≡◌, length};
ghost use Rattle.session.specs.inner.Step.{step_end};
ghost use Rattle.trace.specs.Step.{without_cut, trace_result};

use session::{Session, Stepped};
use session_refusal_code::refusal::{line_fault, slots_for};
use text::{Line, Reply};
use trace_line_code::line::trace_line;
use words_code::lesser;

// A line with c is a line of none of the forms.
fn without_cut(line: Line) -> Line
    ensures line { result ≡ without_cut line }
{
    match line {
        Line::Cut { .. } => Line::Bad,
        _ => line,
    }
}

// A line of a trace is the session's step, and the counts of the cuts of a call that stores are its answer. A refused
// line changes nothing. The cuts are tried in the last two slices; where these are shorter than the set's image,
// nothing is counted.
pub fn trace_step(
    line: Line,
    session: Session,
    image: &mut [u8],
    heads: &mut [u32],
    next: &mut [u32],
    copy: &mut [u8],
    later: &mut [u8],
) -> Stepped
    ensures step { step_end result image.new heads.new next.new ≡
        trace_result (length copy.old) (length later.old) line session image.old heads.old next.old }
{
    let asked = without_cut(line);
    let fault = line_fault(asked, session, image.len(), heads.len(), next.len());
    if fault != 0 {
        return Stepped {
            reply: Reply::Nothing,
            session,
        };
    }
    let m = slots_for(asked, session) as usize + 1;
    let bytes = 128 * m;
    let room = lesser(bytes, copy.len());
    let bound = lesser(bytes, later.len());
    trace_line(
        asked,
        session,
        &mut image[..bytes],
        &mut heads[..1],
        &mut next[..m],
        &mut copy[..room],
        &mut later[..bound],
    )
}
