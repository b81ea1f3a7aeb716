// What a line is refused for before anything is done: 16, 1 and 14.
ghost use Rattle.std.specs.Prelude.{◌≡◌};
ghost use Rattle.session.specs.Step.{form_fault, slots_for, size_fault, count_fault, cut_fault, line_fault};

use session::Session;
use text::Line;

// 16 for a line of none of the forms, else 0.
fn form_fault(line: Line) -> u32
    ensures { result ≡ form_fault line }
{
    match line {
        Line::Bad => 16,
        _ => 0,
    }
}

// The number of slots that a line is carried out with.
pub fn slots_for(line: Line, session: Session) -> u64
    ensures result { result ≡ slots_for line session }
{
    match line {
        Line::New(n) => n,
        _ => session.n,
    }
}

// 1 where n is out of range, or what is lent is too short for n slots, else 0.
fn size_fault(n: u64, image: usize, heads: usize, next: usize) -> u32
    ensures { result ≡ size_fault n image heads next }
{
    if n < 2 || 511 < n || image < 128 * (n as usize + 1) || heads < 1 || next < n as usize + 1 {
        return 1;
    }
    0
}

// 14 for a count above 8, else 0.
fn count_fault(a: u64, b: u64) -> u32
    ensures { result ≡ count_fault a b }
{
    if 8 < a || 8 < b { 14 } else { 0 }
}

// 14 for a cut with a count above 8, else 0.
fn cut_fault(line: Line) -> u32
    ensures { result ≡ cut_fault line }
{
    match line {
        Line::Cut { a, b } => count_fault(a, b),
        _ => 0,
    }
}

// 16, 1 or 14, else 0.
pub fn line_fault(line: Line, session: Session, image: usize, heads: usize, next: usize) -> u32
    ensures result { result ≡ line_fault line session image heads next }
{
    let form = form_fault(line);
    if form != 0 {
        return form;
    }
    let size = size_fault(slots_for(line, session), image, heads, next);
    if size != 0 {
        return size;
    }
    cut_fault(line)
}
