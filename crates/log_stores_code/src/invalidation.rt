// The stores of the log's recovery: one for each whole marked line above the highest complete number, which opens it.
ghost use Rattle.std.specs.Prelude.{◌≡◌, ℕ, ◌+◌, ◌*◌, ◌≤◌, length};
ghost use Rattle.words.specs.Word.{word};
ghost use Rattle.message_log.specs.Recover.{is_above, invalidations};
ghost use Rattle.message_log.specs.inner.Needs.{CellCount, Filled, InvalidationRoom, InvalidationsRoom};

use layout_line_code::line::first_word;
use words_code::read_word;

// Is the marked line of cell c whole and above this number?
fn is_above(area: &[u8], top: u64, c: usize) -> bool
    requires { 448 * (c + 1) ≤ length area.now }
    ensures { result ≡ is_above (word area.now) top c }
{
    let stamp = read_word(area, 8 * (7 * c) + 7);
    read_word(area, 8 * (7 * c)) == stamp % 2 && top < stamp / 2
}

// How many stores the recovery has.
pub fn count_invalidations(area: &[u8], k: usize, top: u64) -> usize
    requires { CellCount (length area.now) k }
    ensures result { result ≡ length (invalidations (word area.now) top 0 k) }
{
    let mut count = 0;
    for c in 0..k {
        if is_above(area, top, c) {
            count += 1;
        }
    }
    count
}

// The store that opens cell c, if it is above, at position n of the lists; the position after it.
fn fill_invalidation(
    area: &[u8],
    at: &mut [u32],
    value: &mut [u64],
    n: usize,
    top: u64,
    c: usize,
) -> usize
    requires { InvalidationRoom area.now (length at.old) (length value.old) n top c }
    ensures { Filled at.old value.old at.new value.new n
        (invalidations (word area.now) top c 1)
        × (result ≡ n + length (invalidations (word area.now) top c 1)) }
{
    if is_above(area, top, c) {
        at[n] = (8 * (7 * c)) as u32;
        value[n] = first_word(read_word(area, 8 * (7 * c) + 7));
        return n + 1;
    }
    n
}

// All of them, at the front of the lists.
pub fn fill_invalidations(area: &[u8], at: &mut [u32], value: &mut [u64], k: usize, top: u64)
    requires { InvalidationsRoom area.now (length at.old) (length value.old) k top }
    ensures result { Filled at.old value.old at.new value.new 0
        (invalidations (word area.now) top 0 k) }
{
    let mut n = 0;
    for c in 0..k {
        n = fill_invalidation(area, at, value, n, top, c);
    }
}
