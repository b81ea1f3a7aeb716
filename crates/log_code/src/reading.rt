// Read: a message as the part of the lent area that holds it.
ghost use Rattle.std.specs.Prelude.{◌≡◌, ℕ, [], ◌∷◌, ◌%◌, IfOk};
ghost use Rattle.prelude.specs.Answer.{gives};
ghost use Rattle.refusals.specs.Number.{fault_in};
ghost use Rattle.words.specs.Word.{word};
ghost use Rattle.message_log.specs.Area.{cells_in, marked_line};
ghost use Rattle.message_log.specs.Message.{message_start, message_in};
ghost use Rattle.message_log.specs.Read.{read_fault, read_says, read_result, part_says, part_result};
ghost use Rattle.message_log.specs.inner.Needs.{Readable};

use log_cell_code::cells::{check_area, is_shown};
use message_log::Part;
use refusals::Refusal;
use words_code::read_word;

// The cell of the message with this number; or the refusal 30 or 31.
fn shown_cell(area: &[u8], number: u64) -> Result<usize, Refusal>
    ensures fault { fault_in result ≡ read_fault area.now number }
    ensures cell { IfOk result (λ c. c ≡ number % cells_in area.now) }
{
    let k = check_area(area)?;
    if !is_shown(area, k, number) {
        return Err(Refusal::NoMessage);
    }
    Ok((number % (k as u64)) as usize)
}

// The message in cell c.
fn message_part(area: &[u8], c: usize) -> &[u8]
    requires { Readable area.now c }
    ensures { result.now ≡ message_in area.now c }
{
    let size = read_word(area, 8 * (7 * c) + 1) as usize;
    let start = 448 * c + 64;
    let end = start + size;
    &area[start..end]
}

// The message with this number, unpadded; or the refusal, which has no part.
pub fn read(area: &[u8], number: u64) -> Result<&[u8], Refusal>
    ensures result { read_says (λ part. part.now) result ≡ read_result area.now number }
{
    let c = shown_cell(area, number)?;
    let part = message_part(area, c);
    Ok(part)
}

// Where the message in cell c stands.
fn part_in(area: &[u8], c: usize) -> Part
    requires { Readable area.now c }
    ensures { gives (result.start ∷ result.size ∷ []) ≡ gives (message_start c ∷ marked_line (word area.now) c 1 ∷ []) }
{
    let size = read_word(area, 8 * (7 * c) + 1) as usize;
    Part {
        start: 448 * c + 64,
        size,
    }
}

// Where the message with this number stands, or the refusal.
pub fn find(area: &[u8], number: u64) -> Result<Part, Refusal>
    ensures result { part_says result ≡ part_result area.now number }
{
    let c = shown_cell(area, number)?;
    Ok(part_in(area, c))
}
