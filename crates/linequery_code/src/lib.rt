// What a sender asks of a single line, lent as 64 bytes. Each answer is put as a word into 8 lent bytes; a refusal
// leaves them as they were.

#![tactic(auto)]

ghost use Rattle.std.specs.Prelude.{◌≡◌, cond};
ghost use Rattle.layout.specs.Line.{whole};
ghost use Rattle.refusals.specs.Number.{fault_in};
ghost use Rattle.linequery.specs.Query.{slice_fault, next_fault, query_end, whole_query, version_query, first_query, last_query};

use layout_line_code::line::{check_version, first_word, is_whole, last_word, version_of};
use refusals::Refusal;
use words_code::{read_word, write_word};

// The refusal 33, of a line or an answer of another length.
fn check_slices(line: usize, answer: usize) -> Result<(), Refusal>
    ensures { fault_in result ≡ slice_fault line answer }
{
    if line != 64 || answer != 8 {
        return Err(Refusal::BadLineLength);
    }
    Ok(())
}

// The same, then 9, of a next version that cannot be written.
fn check_next(line: usize, answer: usize, version: u64) -> Result<(), Refusal>
    ensures { fault_in result ≡ next_fault line answer version }
{
    check_slices(line, answer)?;
    check_version(version)
}

// 1 for a whole line, 0 for an open one.
fn whole_word(mark: u64, stamp: u64) -> u64
    ensures { result ≡ cond (whole mark stamp) 1 0 }
{
    u64::from(is_whole(mark, stamp))
}

// Is the line whole?
pub fn whole_query(line: &[u8], answer: &mut [u8]) -> Result<(), Refusal>
    ensures result { query_end (fault_in result) answer.new ≡ whole_query line.now answer.old }
{
    check_slices(line.len(), answer.len())?;
    write_word(
        answer,
        0,
        whole_word(read_word(line, 0), read_word(line, 7)),
    );
    Ok(())
}

// The version of the line.
pub fn version_query(line: &[u8], answer: &mut [u8]) -> Result<(), Refusal>
    ensures result { query_end (fault_in result) answer.new ≡ version_query line.now answer.old }
{
    check_slices(line.len(), answer.len())?;
    write_word(answer, 0, version_of(read_word(line, 7)));
    Ok(())
}

// The first word that a call of this version stores into the line.
pub fn first_query(line: &[u8], version: u64, answer: &mut [u8]) -> Result<(), Refusal>
    ensures result { query_end (fault_in result) answer.new ≡ first_query version line.now answer.old }
{
    check_next(line.len(), answer.len(), version)?;
    write_word(answer, 0, first_word(read_word(line, 7)));
    Ok(())
}

// And the last.
pub fn last_query(line: &[u8], version: u64, answer: &mut [u8]) -> Result<(), Refusal>
    ensures result { query_end (fault_in result) answer.new ≡ last_query version line.now answer.old }
{
    check_next(line.len(), answer.len(), version)?;
    write_word(answer, 0, last_word(read_word(line, 7), version));
    Ok(())
}
