// Counts the slots of images that come one after another on standard input: a line for each image, and a last line of
// totals. Each second a line on standard error says how many images were read.
#![tactic(auto)]

ghost use Rattle.std.specs.Prelude.{◌≡◌, Some, ◌+◌, ◌≤◌, length};
ghost use Rattle.report_text.specs.inner.Images.{Buffers, IsReported};

use report_text::{Block, FrontReport, ReportProgress};
use report_text_code::{report_front, report_last, start_report};
use show::input::read_some;
use show::progress::{counted, seconds};
use std::io::{Stdin, Stdout};
use std::time::Clock;

// How far the report is; the bytes at the front of the input that are not read yet; whether there may be more, and
// whether every write succeeded; and the second of the last line on standard error.
#[derive(Clone, Copy)]
struct Status {
    progress: ReportProgress,
    have: usize,
    going: bool,
    written: bool,
    second: u64,
}

// One read to the place after the first `have` bytes: how many bytes came, 0 at the end.
fn read_more(stdin: Stdin, input: &mut [u8], have: usize) -> usize
    requires { have ≤ length input.old }
    ensures inside { have + result ≤ length input.old }
{
    read_some(stdin, &mut input[have..])
}

// What was reported, of an answer that is no refusal.
fn reported(answer: Option<FrontReport>, progress: ReportProgress) -> FrontReport
    requires { IsReported answer }
    ensures result { answer ≡ Some result }
{
    match answer {
        Some(front) => front,
        None => FrontReport {
            block: Block {
                progress,
                used: 0,
                end: 0,
            },
            carried: 0,
            ended: true,
        },
    }
}

// Where another second has begun, a line on standard error says how many images were read.
fn show_images_read(rt: &(impl Eprint + Clock), second: u64, left: u32) -> u64 {
    let now = seconds(rt);
    if now != second {
        if left <= 1000000 {
            counted(rt, (1000000 - left) as u64, " images\n");
        }
    }
    now
}

// One read, and the report on the whole images that are there then.
fn read_and_report(
    rt: &(impl Eprint + Clock),
    stdin: Stdin,
    stdout: Stdout,
    s: Status,
    input: &mut [u8],
    out: &mut [u8],
) -> Status
    requires { Buffers s.progress s.have input.old out.old }
    ensures kept { Buffers result.progress result.have input.new out.new }
{
    let n = read_more(stdin, input, s.have);
    let p = s.progress;
    let answer = report_front(input, s.have + n, p, out);
    let front = reported(answer, p);
    let block = front.block;
    let end = block.end;
    let written = show::written(stdout, &out[..end]);
    let progress = block.progress;
    Status {
        progress,
        have: front.carried,
        going: n != 0 && written && !front.ended,
        written,
        second: show_images_read(rt, s.second, progress.left),
    }
}

// The end: what is left of the input, and the totals.
fn finish_report(stdout: Stdout, s: Status, input: &[u8], out: &mut [u8])
    requires { s.have ≤ length input.now }
{
    let p = s.progress;
    let have = s.have;
    let end = report_last(&input[..have], p, out);
    show::written(stdout, &out[..end]);
}

fn main(rt: HostRuntime) {
    let stdin = rt.stdin();
    let stdout = rt.stdout();
    let mut input = [0u8; 98304];
    let mut out = [0u8; 33280];
    let mut s = Status {
        progress: start_report(),
        have: 0,
        going: true,
        written: true,
        second: seconds(&rt),
    };
    let mut reads = u64::MAX;
    while reads > 0 && s.going {
        s = read_and_report(&rt, stdin, stdout, s, &mut input, &mut out);
        reads -= 1;
    }
    if s.written {
        finish_report(stdout, s, &input, &mut out);
    }
}
