// What is asked of a single line, lent as 64 bytes; each answer is a word in 8 lent bytes.
ghost use Rattle.std.specs.Prelude.{◌≡◌};
ghost use Rattle.linequery.specs.Query.{query_end, whole_query, version_query, first_query, last_query};

use linequery_code::{first_query, last_query, version_query, whole_query};
use orderset::return_code;

// The answer is 1 for a whole line and 0 for an open one.
#[unsafe(no_mangle)]
pub extern "C" fn orderset_proved_line_whole(line: &[u8], answer: &mut [u8]) -> u32
    ensures result { query_end result answer.new ≡ whole_query line.now answer.old }
{
    return_code(whole_query(line, answer))
}

// The answer is the version in the line's stamp.
#[unsafe(no_mangle)]
pub extern "C" fn orderset_proved_line_version(line: &[u8], answer: &mut [u8]) -> u32
    ensures result { query_end result answer.new ≡ version_query line.now answer.old }
{
    return_code(version_query(line, answer))
}

// The answer is the first word that a call of this version stores into the line.
#[unsafe(no_mangle)]
pub extern "C" fn orderset_proved_line_first(line: &[u8], version: u64, answer: &mut [u8]) -> u32
    ensures result { query_end result answer.new ≡ first_query version line.now answer.old }
{
    return_code(first_query(line, version, answer))
}

// The answer is the last word that it stores.
#[unsafe(no_mangle)]
pub extern "C" fn orderset_proved_line_last(line: &[u8], version: u64, answer: &mut [u8]) -> u32
    ensures result { query_end result answer.new ≡ last_query version line.now answer.old }
{
    return_code(last_query(line, version, answer))
}
