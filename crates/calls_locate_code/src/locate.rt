// Locate: the slot and the version of a key. `l` is the layout; a key is two words, the high one 0 in layout 1.
ghost use Rattle.std.specs.Prelude.{◌≡◌};
ghost use Rattle.layout.specs.Record.{Layout, key_with};
ghost use Rattle.layout.specs.Layouts.{layout_number};
ghost use Rattle.calls.specs.Locate.{locate_end, locate_result};

use calls::{LocateAnswer, Located};
use index::Found;
use index_read_code::search::find_key;
use layout_code::header::{check_lent, slot_count};
use layout_fields_code::fields::layout_number;
use refusals::return_code;
use words_code::read_word;

// Locate, in layout l.
pub fn locate_in(
    image: &[u8],
    l: usize,
    heads: &[u32],
    next: &[u32],
    low: u64,
    high: u64,
) -> LocateAnswer
    requires { Layout l }
    ensures result { locate_end result ≡ locate_result l image.now heads.now next.now (key_with low high) }
{
    let lent = return_code(check_lent(image, l, heads.len(), next.len()));
    if lent != 0 {
        return LocateAnswer {
            located: Located::Refused(lent),
            compared: 0,
        };
    }
    let found = find_key(image, l, heads, next, slot_count(image.len()), low, high);
    match found {
        Found::At { slot, compared, .. } => LocateAnswer {
            located: Located::At {
                slot,
                version: read_word(image, 16 * (slot as usize) + 7) / 2,
            },
            compared,
        },
        Found::Missing { compared, .. } => LocateAnswer {
            located: Located::Absent,
            compared,
        },
        Found::BadChain => LocateAnswer {
            located: Located::Refused(11),
            compared: 0,
        },
    }
}

// Locate, in either layout.
pub fn locate_in_layout(
    image: &[u8],
    wide: bool,
    heads: &[u32],
    next: &[u32],
    low: u64,
    high: u64,
) -> LocateAnswer
    ensures result { locate_end result
        ≡ locate_result (layout_number wide) image.now heads.now next.now (key_with low high) }
{
    locate_in(image, layout_number(wide), heads, next, low, high)
}

// The slot that holds the key and the version on its line A; absent; or a refusal. Each has the slots compared.
pub fn locate(image: &[u8], heads: &[u32], next: &[u32], key: u64) -> LocateAnswer
    ensures result { locate_end result ≡ locate_result 1 image.now heads.now next.now key }
{
    locate_in(image, 1, heads, next, key, 0)
}

// Locate in layout 2: a key of two words.
pub fn locate2(image: &[u8], heads: &[u32], next: &[u32], low: u64, high: u64) -> LocateAnswer
    ensures result { locate_end result ≡ locate_result 2 image.now heads.now next.now (key_with low high) }
{
    locate_in(image, 2, heads, next, low, high)
}
