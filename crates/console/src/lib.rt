// A session from standard input to standard output, of any size; and the output of one that is read byte by byte.
#![tactic(auto)]

ghost use Rattle.std.specs.Prelude.{◌≡◌, true, false, not, cond, ◌≤◌, eqb, length, IsOk, IsErr, OnOk, IfOk};
ghost use Rattle.session.specs.Step.{step_result};
ghost use Rattle.session.specs.Stream.{stream_end, lacks_room, emptied, after_read};

use session::Progress;
use session_stream_code::stream::{end_input, open_stream, take_byte};
use show::input::read_some;
use std::io::{Stdin, Stdout};

// Why a session stops before the end of its input: not all of its output could be written. Nothing more is read or
// written then.
#[derive(Clone, Copy, Debug, PartialEq, Eq)]
pub struct Unwritten;

// An error where a write has failed.
fn check_written(written: bool) -> Result<(), Unwritten>
    ensures ok { written ≡ true → IsOk result }
    ensures err { written ≡ false → IsErr result }
{
    if written { Ok(()) } else { Err(Unwritten) }
}

// The stored output is written, and the next line is stored at the front; whether it can be written is the system's.
#[tactic(auto, unfolding(session::specs::Stream::emptied))]
pub fn flush(stdout: Stdout, progress: &mut Progress, out: &[u8]) -> Result<(), Unwritten>
    ensures progress { progress.new ≡ emptied progress.old }
    ensures inside { OnOk result (progress.old.at ≤ length out.now) }
{
    let at = progress.at;
    progress.at = 0;
    if out.len() < at {
        return Err(Unwritten);
    }
    check_written(show::written(stdout, &out[..at]))
}

// After a byte: the output is written before a further line might lack room, and only then.
pub fn after_byte(stdout: Stdout, progress: &mut Progress, out: &[u8]) -> Result<(), Unwritten>
    ensures progress { progress.new ≡ cond (lacks_room progress.old (length out.now)) (emptied progress.old) progress.old }
    ensures room { lacks_room progress.old (length out.now) ≡ false → IsOk result }
{
    if out.len().saturating_sub(progress.at) < 64 {
        flush(stdout, progress, out)
    } else {
        Ok(())
    }
}

// The bytes of one read, up to a write that fails, and the output of all of them is written. Whether the input may have
// more: where there are no bytes, it has ended. The image, the index and the output are lent one by one, as `take_byte`
// takes them.
fn take_bytes(
    stdout: Stdout,
    progress: &mut Progress,
    input: &[u8],
    image: &mut [u8],
    heads: &mut [u32],
    next: &mut [u32],
    out: &mut [u8],
) -> Result<bool, Unwritten>
    ensures stream { OnOk result (
        stream_end progress.new image.new heads.new next.new out.new ≡
        after_read step_result
        (stream_end progress.old image.old heads.old next.old out.old) input.now) }
    ensures reading { IfOk result (λ more. more ≡ not (eqb (length input.now) 0)) }
{
    for &byte in input {
        *progress = take_byte(*progress, byte, image, heads, next, out);
        after_byte(stdout, progress, out)?;
    }
    flush(stdout, progress, out)?;
    Ok(!input.is_empty())
}

fn take_input(stdin: Stdin, stdout: Stdout) -> Result<(), Unwritten> {
    let mut input = [0; 4096];
    let mut out = [0; 4096];
    let mut image = [0; 65536];
    let mut heads = [0; 1];
    let mut next = [0; 512];
    let mut progress = open_stream();
    // The reads are counted, since nothing says that the input ends.
    for _ in 0..u64::MAX {
        let n = read_some(stdin, &mut input);
        let more = take_bytes(
            stdout,
            &mut progress,
            &input[..n],
            &mut image,
            &mut heads,
            &mut next,
            &mut out,
        )?;
        if !more {
            break;
        }
    }
    progress = end_input(progress, &mut image, &mut heads, &mut next, &mut out);
    flush(stdout, &mut progress, &out)
}

// The session of the whole input: a line of output for each line.
pub fn run_session(stdin: Stdin, stdout: Stdout) {
    let _ = take_input(stdin, stdout);
}
