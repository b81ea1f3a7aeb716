// Cells: how many an area has, the complete number of a cell, the highest complete number, and the numbers shown. k is
// the number of cells.
ghost use Rattle.std.specs.Prelude.{◌≡◌, ℕ, ◌+◌, ◌*◌, ◌≤◌, ◌<◌, max, length, IfOk};
ghost use Rattle.refusals.specs.Number.{fault_in};
ghost use Rattle.words.specs.Word.{word};
ghost use Rattle.message_log.specs.Area.{cells_in, area_fault};
ghost use Rattle.message_log.specs.Message.{bits_differ, message_number, highest, shown};
ghost use Rattle.message_log.specs.inner.Needs.{CellCount, CellInside};

use crate::bit::pair_differs;
use refusals::Refusal;
use words_code::{greater, read_word};

// How many cells the area has; or the refusal 30, where no area has its length.
pub fn check_area(area: &[u8]) -> Result<usize, Refusal>
    ensures fault { fault_in result ≡ area_fault area.now }
    ensures cells { IfOk result (λ k. k ≡ cells_in area.now) }
{
    match area.len() {
        len @ 896..=448000 if len % 448 == 0 => Ok(len / 448),
        _ => Err(Refusal::BadLogLength),
    }
}

// Does one of the six bits of cell c not match?
fn bits_differ(area: &[u8], c: usize) -> bool
    requires { 448 * (c + 1) ≤ length area.now }
    ensures { result ≡ bits_differ (word area.now) c }
{
    let mut rest = read_word(area, 8 * (7 * c) + 2);
    for i in 0..6 {
        if pair_differs(area, 7 * c + 1 + i, rest % 1024) {
            return true;
        }
        rest /= 1024;
    }
    false
}

// The complete number that stands in cell c, 0 if none does.
fn number_in(area: &[u8], k: usize, c: usize) -> u64
    requires { CellInside (length area.now) k c }
    ensures { result ≡ message_number k (word area.now) c }
{
    let stamp = read_word(area, 8 * (7 * c) + 7);
    let version = stamp / 2;
    if read_word(area, 8 * (7 * c)) != stamp % 2
        || version == 0
        || version % (k as u64) != c as u64
    {
        return 0;
    }
    match read_word(area, 8 * (7 * c) + 1) {
        1..=384 if !bits_differ(area, c) => version,
        _ => 0,
    }
}

// The greater of best and the complete number of cell c. A line whose version is not above best needs no further look.
fn greater_in(area: &[u8], k: usize, c: usize, best: u64) -> u64
    requires { CellInside (length area.now) k c }
    ensures { result ≡ max (message_number k (word area.now) c) best }
{
    let stamp = read_word(area, 8 * (7 * c) + 7);
    if stamp / 2 <= best {
        return best;
    }
    greater(number_in(area, k, c), best)
}

// The highest complete number, 0 if none is complete. The last cell comes first: numbers rise with their cells, so that
// few bits are compared.
pub fn highest_number(area: &[u8], k: usize) -> u64
    requires { CellCount (length area.now) k }
    ensures result { result ≡ highest k (word area.now) }
{
    let mut best = 0;
    for c in (0..k).rev() {
        best = greater_in(area, k, c, best);
    }
    best
}

// Is this number shown?
pub fn is_shown(area: &[u8], k: usize, number: u64) -> bool
    requires { CellCount (length area.now) k }
    ensures result { result ≡ shown k (word area.now) number }
{
    let top = highest_number(area, k);
    if number == 0 || top < number || (k as u64) - 1 <= top - number {
        return false;
    }
    let c = (number % (k as u64)) as usize;
    number_in(area, k, c) == number
}
