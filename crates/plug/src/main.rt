// The release trace: calls in the lines of the trial session on standard input, and for each call that stores one line
// on standard output, with how many of its 81 cuts leave the earlier map and how many the later. Each second a line on
// standard error says how far it is.
#![tactic(auto)]

ghost use Rattle.std.specs.Prelude.{◌≡◌, not, length, ◌==◌, OnOk, IfOk};
ghost use Rattle.session.specs.Stream.{stream_end, after_read};
ghost use Rattle.trace.specs.Step.{trace_result};

use console::{Unwritten, after_byte, flush};
use session::Progress;
use session_stream_code::stream::open_stream;
use show::input::read_some;
use show::progress::{counted, seconds};
use std::io::{Stdin, Stdout};
use std::time::Clock;
use trace_code::stream::{trace_byte, trace_end};

// How many lines were read and how many calls tried, and the second of the last line on standard error.
#[derive(Clone, Copy)]
struct Tried {
    lines: u64,
    calls: u64,
    second: u64,
}

impl Tried {
    // The end of a line is one line more, and one call more where output was stored for it. Where another second has
    // begun, a line on standard error says how many there are.
    fn count_line(&mut self, rt: &(impl Eprint + Clock), stored: bool) {
        self.lines = self.lines.wrapping_add(1);
        if stored {
            self.calls = self.calls.wrapping_add(1);
        }
        let now = seconds(rt);
        if now != self.second {
            counted(rt, self.lines, " lines, ");
            counted(rt, self.calls, " calls tried\n");
        }
        self.second = now;
    }
}

// The bytes of one read, up to a write that fails, and the output of all of them is written. Whether the input may have
// more: where there are no bytes, it has ended. The image, the index and the output are lent one by one, as `trace_byte`
// takes them.
fn trace_bytes(
    rt: &(impl Eprint + Clock),
    stdout: Stdout,
    progress: &mut Progress,
    tried: &mut Tried,
    input: &[u8],
    image: &mut [u8],
    heads: &mut [u32],
    next: &mut [u32],
    copy: &mut [u8],
    later: &mut [u8],
    out: &mut [u8],
) -> Result<bool, Unwritten>
    ensures stream { OnOk result (
        stream_end progress.new image.new heads.new next.new out.new ≡
        after_read (trace_result (length copy.old) (length later.old))
        (stream_end progress.old image.old heads.old next.old out.old) input.now) }
    ensures reading { IfOk result (λ more. more ≡ not (length input.now == 0)) }
{
    for &byte in input {
        let at = progress.at;
        *progress = trace_byte(*progress, byte, image, heads, next, copy, later, out);
        if byte == b'\n' {
            tried.count_line(rt, at < progress.at);
        }
        after_byte(stdout, progress, out)?;
    }
    flush(stdout, progress, out)?;
    Ok(!input.is_empty())
}

fn trace_input(rt: &(impl Eprint + Clock), stdin: Stdin, stdout: Stdout) -> Result<(), Unwritten> {
    let mut input = [0; 4096];
    let mut out = [0; 4096];
    let mut image = [0; 65536];
    let mut copy = [0; 65536];
    let mut later = [0; 65536];
    let mut heads = [0; 1];
    let mut next = [0; 512];
    let mut progress = open_stream();
    let mut tried = Tried {
        lines: 0,
        calls: 0,
        second: seconds(rt),
    };
    // The reads are counted, since nothing says that the input ends.
    for _ in 0..u64::MAX {
        let n = read_some(stdin, &mut input);
        let more = trace_bytes(
            rt,
            stdout,
            &mut progress,
            &mut tried,
            &input[..n],
            &mut image,
            &mut heads,
            &mut next,
            &mut copy,
            &mut later,
            &mut out,
        )?;
        if !more {
            break;
        }
    }
    progress = trace_end(
        progress, &mut image, &mut heads, &mut next, &mut copy, &mut later, &mut out,
    );
    flush(stdout, &mut progress, &out)
}

// Where a write fails, nothing more is read or written.
fn main(rt: HostRuntime) {
    let _ = trace_input(&rt, rt.stdin(), rt.stdout());
}
