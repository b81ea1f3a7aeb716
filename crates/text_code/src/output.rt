// An answer as a line of output.
ghost use Rattle.std.specs.Prelude.{◌≡◌, [], ◌∷◌, ◌++◌, ◌+◌, ◌*◌, ◌≤◌, ◌<◌, length, drop};
ghost use Rattle.text.specs.Output.{text, decimal, numbers_text, line_text, written, render_end, render_result};
ghost use Rattle.text.specs.inner.Output.{reply_says, Wrote};

use text::Reply;

// The bytes are stored from position at on.
#[tactic(auto, using(text::proofs::Storing::bytes_stored))]
fn store_bytes(out: &mut [u8], at: usize, bytes: &[u8])
    requires { at + length bytes.now ≤ length out.old }
    ensures { out.new ≡ written out.old at bytes.now }
{
    out[at..at + bytes.len()].copy_from_slice(bytes);
}

// The decimal digits of n fill the end of the 20 bytes: the position of the first one.
fn store_digits(n: u64, space: &mut [u8]) -> usize
    requires { length space.old ≡ 20 }
    ensures { (result < 20) × (drop result space.new ≡ decimal n) }
{
    let mut rest = n;
    for i in (0..20).rev() {
        space[i] = b'0' + (rest % 10) as u8;
        if rest < 10 {
            return i;
        }
        rest /= 10;
    }
    unreachable!()
}

// A space and the number n: the position after them.
fn store_number(out: &mut [u8], at: usize, n: u64) -> usize
    requires { at + 21 ≤ length out.old }
    ensures { Wrote out.old out.new at result (32 ∷ decimal n) }
{
    let mut space = [0u8; 20];
    let from = store_digits(n, &mut space);
    store_bytes(out, at, b" ");
    store_bytes(out, at + 1, &space[from..]);
    at + 1 + (20 - from)
}

// The word, each number after a space, and the end of the line: the position after them.
fn store_line(out: &mut [u8], at: usize, word: &[u8], numbers: &[u64]) -> usize
    requires { at + length word.now + 21 * length numbers.now + 1 ≤ length out.old }
    ensures { Wrote out.old out.new at result (word.now ++ numbers_text numbers.now) }
{
    store_bytes(out, at, word);
    let mut after = at + word.len();
    for n in numbers {
        after = store_number(out, after, *n);
    }
    store_bytes(out, after, b"\n");
    after + 1
}

// The word and one number after it.
pub fn store_one(out: &mut [u8], at: usize, word: &[u8], n: u64) -> usize
    requires { at + length word.now + 22 ≤ length out.old }
    ensures result { Wrote out.old out.new at result (word.now ++ numbers_text (n ∷ [])) }
{
    store_line(out, at, word, &[n])
}

// Numbers alone, with one space between: the position after them and the end of the line.
pub fn store_numbers(out: &mut [u8], at: usize, first: u64, rest: &[u64]) -> usize
    requires { at + 21 * length rest.now + 21 ≤ length out.old }
    ensures result { Wrote out.old out.new at result (line_text (first ∷ rest.now)) }
{
    let mut space = [0u8; 20];
    let from = store_digits(first, &mut space);
    store_line(out, at, &space[from..], rest)
}

// The answer's line, where 64 bytes are left.
#[tactic(auto, using(text::proofs::Storing::wrote_nothing), unfolding(text::specs::Output::text, text::specs::inner::Output::reply_says))]
fn store_reply(reply: Reply, out: &mut [u8], at: usize) -> usize
    requires { at + 64 ≤ length out.old }
    ensures { Wrote out.old out.new at result (text (reply_says reply)) }
{
    match reply {
        Reply::Made(n) => store_one(out, at, b"ok", n),
        Reply::Stored { slot, version } => store_line(out, at, b"ok", &[u64::from(slot), version]),
        Reply::Found(word) => store_one(out, at, b"found", word),
        Reply::Absent => store_line(out, at, b"absent", &[]),
        Reply::Cut { a, b } => store_line(out, at, b"cut", &[a, b]),
        Reply::Refused(number) => store_one(out, at, b"no", u64::from(number)),
        Reply::Counted { earlier, later } => {
            store_numbers(out, at, u64::from(earlier), &[u64::from(later)])
        }
        Reply::Nothing => at,
    }
}

// The answer's line is stored from position at on: the position after it. Where fewer than 64 bytes are left, nothing
// is stored.
#[tactic(auto, using(text::proofs::Storing::no_room))]
pub fn render(reply: Reply, out: &mut [u8], at: usize) -> usize
    ensures result { render_end result out.new ≡ render_result (reply_says reply) out.old at }
{
    if out.len() < at || out.len() - at < 64 {
        return at;
    }
    store_reply(reply, out, at)
}
