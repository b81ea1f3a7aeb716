// Which slots are void: judging along the order by rank, the stores that open the void slots, and the lists without
// them.
ghost use Rattle.std.specs.Prelude.{◌≡◌, [], ◌+◌, ◌*◌, ◌≤◌, ◌<◌, ltb, length, get_or};
ghost use Rattle.words.specs.Word.{word};
ghost use Rattle.prelude.specs.Filter.{filter};
ghost use Rattle.prelude.specs.Members.{slot_numbers};
ghost use Rattle.layout.specs.Content.{size_field_in};
ghost use Rattle.stores.specs.Invalidation.{invalidating_stores};
ghost use Rattle.recovery.specs.Invalidation.{invalidations_of};
ghost use Rattle.recovery.specs.inner.Decide.{full_run, judged_rank, Cleared};
ghost use Rattle.recovery.specs.inner.Judge.{OrderNumbered, Settleable, Settled, with_store};

use crate::comparing::{number_at, records_said};
use layout_line_code::line::first_word;
use recovery::Invalidations;
use recovery_order_code::ordering::{entry_at, order_by_key, order_by_rank};
use words_code::read_word;

// Up to position i, is its run as long as the number of the slot says?
fn is_full(image: &[u8], l: usize, ranks: &[u64], order: &[u32], i: usize, n: usize) -> bool
    requires { OrderNumbered image.now l order.now n × (length ranks.now ≡ n + 1) × (i < n) }
    ensures { result ≡ full_run (size_field_in l (word image.now)) ranks.now order.now i }
{
    let size = records_said(number_at(image, l, order, i, n));
    size <= i + 1 && entry_at(ranks, order, i + 1 - size) == entry_at(ranks, order, i)
}

// Judging from the end of the order down: the rank of the first slot with a full run, 2 where there is none. Slots
// above it are void.
pub fn judged_rank(image: &[u8], l: usize, ranks: &[u64], order: &[u32], n: usize) -> u64
    requires { OrderNumbered image.now l order.now n × (length ranks.now ≡ n + 1) }
    ensures result { result ≡ judged_rank (size_field_in l (word image.now)) ranks.now order.now n }
{
    for i in (0..n).rev() {
        let rank = entry_at(ranks, order, i);
        if rank < 2 {
            return 2;
        }
        if is_full(image, l, ranks, order, i, n) {
            return rank;
        }
    }
    2
}

// No invalidating stores.
pub fn no_invalidations() -> Invalidations
    ensures result { result ≡ invalidations_of [] }
{
    Invalidations {
        count: 0,
        at: [0; 8],
        value: [0; 8],
    }
}

// Invalidating stores with one more, that of this word and value.
fn with_store(opened: Invalidations, word: u32, mark: u64) -> Invalidations
    requires { opened.count < 65536 }
    ensures { result ≡ with_store opened (record { word = word; value = mark }) }
{
    let i = opened.count as usize;
    let mut all = Invalidations {
        count: opened.count + 1,
        ..opened
    };
    if i < 8 {
        all.at[i] = word;
        all.value[i] = mark;
    }
    all
}

// The stores that open the slots of a rank above the limit, by slot.
fn invalidating_stores(image: &[u8], ranks: &[u64], n: usize, limit: u64) -> Invalidations
    requires { (length image.now ≡ 128 * (n + 1)) × (length ranks.now ≡ n + 1) × (n ≤ 65535) }
    ensures { result
        ≡ invalidations_of (invalidating_stores (word image.now) (filter (λ s. ltb limit (get_or ranks.now s 0)) (slot_numbers n))) }
{
    let mut opened = no_invalidations();
    for s in 1..=n {
        if limit < ranks[s] {
            let mark = first_word(read_word(image, 16 * s + 7));
            opened = with_store(opened, 16 * s as u32, mark);
        }
    }
    opened
}

// Slots of a rank above the limit lose rank and place.
fn clear_above(ranks: &mut [u64], places: &mut [u32], n: usize, limit: u64)
    requires { (length ranks.old ≡ n + 1) × (length places.old ≡ n + 1) × (n ≤ 65535) }
    ensures { Cleared limit n ranks.old places.old ranks.new places.new }
{
    for s in 1..=n {
        if limit < ranks[s] {
            ranks[s] = 0;
            places[s] = 0;
        }
    }
}

// The lists without the slots of a rank above the limit, in order again, and the stores that open those slots.
pub fn settle(
    image: &[u8],
    n: usize,
    limit: u64,
    ranks: &mut [u64],
    lows: &[u64],
    highs: &[u64],
    places: &mut [u32],
    order: &mut [u32],
    by_key: &mut [u32],
    scratch: &mut [u32],
) -> Invalidations
    requires { Settleable image.now n ranks.old lows.now highs.now places.old order.old by_key.old scratch.old }
    ensures result { Settled (word image.now) limit n ranks.old lows.now highs.now
        places.old ranks.new places.new order.new by_key.new result }
{
    if entry_at(ranks, order, n - 1) <= limit {
        return no_invalidations();
    }
    let opened = invalidating_stores(image, ranks, n, limit);
    clear_above(ranks, places, n, limit);
    order_by_rank(ranks, order, scratch);
    order_by_key(lows, highs, order, by_key, scratch);
    opened
}
