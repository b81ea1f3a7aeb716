// 7: along the order by rank a run of one rank whose numbers differ or that is too long, along the order by key one key
// twice in a version.
ghost use Rattle.std.specs.Prelude.{◌≡◌, ◌+◌, ◌-◌, ◌≤◌, ◌<◌, length, get_or};
ghost use Rattle.words.specs.Word.{word};
ghost use Rattle.prelude.specs.Range.{any_of};
ghost use Rattle.layout.specs.Content.{size_field_in};
ghost use Rattle.table.specs.Complete.{basket_size};
ghost use Rattle.recovery.specs.inner.Scan.{key_at};
ghost use Rattle.recovery.specs.inner.Decide.{equal_neighbours, too_many, run_fault, key_twice, Within, NoneOrAll};
ghost use Rattle.recovery.specs.inner.Judge.{OrderNumbered, Comparable, Compared};

use layout_fields_code::fields::slot_number;
use recovery_order_code::ordering::{entry_at, is_followed, order_by_key, order_by_rank};

// How many records a number says.
pub fn records_said(number: u64) -> usize
    requires { number < 256 }
    ensures result { (result ≡ basket_size number) × (1 ≤ result) × (result < 256) }
{
    number.max(1) as usize
}

// The number of the slot at position i of the order.
pub fn number_at(image: &[u8], l: usize, order: &[u32], i: usize, n: usize) -> u64
    requires { OrderNumbered image.now l order.now n × (i < n) }
    ensures result { (result ≡ size_field_in l (word image.now) (get_or order.now i 0)) × (result < 256) }
{
    slot_number(image, l, order[i] as usize)
}

// Do two neighbours of the order have one rank, and are records?
fn is_shared(ranks: &[u64], order: &[u32], i: usize) -> bool
    requires { (i + 1 < length order.now) × (get_or order.now i 0 < length ranks.now) × (get_or order.now (i + 1) 0 < length ranks.now) }
    ensures { result ≡ equal_neighbours ranks.now order.now i }
{
    let a = entry_at(ranks, order, i);
    2 <= a && a == entry_at(ranks, order, i + 1)
}

// Do any two neighbours?
fn any_shared(ranks: &[u64], order: &[u32], n: usize) -> bool
    requires { (length order.now ≡ n) × (1 ≤ n) × (length ranks.now ≡ n + 1) × Within order.now n }
    ensures { result ≡ any_of (equal_neighbours ranks.now order.now) 0 (n - 1) }
{
    (0..n - 1).any(|i| is_shared(ranks, order, i))
}

// From position i on, does its run go on for more slots than the number of the slot says?
fn is_too_many(image: &[u8], l: usize, ranks: &[u64], order: &[u32], i: usize, n: usize) -> bool
    requires { OrderNumbered image.now l order.now n × (length ranks.now ≡ n + 1) × (i < n) }
    ensures { result ≡ too_many (size_field_in l (word image.now)) ranks.now order.now i }
{
    let end = i + records_said(number_at(image, l, order, i, n));
    end < n && entry_at(ranks, order, end) == entry_at(ranks, order, i)
}

// Do the slots at positions i and i + 1 share a version and differ in their numbers, or are there too many of them?
fn is_run_fault(image: &[u8], l: usize, ranks: &[u64], order: &[u32], i: usize, n: usize) -> bool
    requires { OrderNumbered image.now l order.now n × (length ranks.now ≡ n + 1) × (i + 1 < n) }
    ensures { result ≡ run_fault (size_field_in l (word image.now)) ranks.now order.now i }
{
    is_shared(ranks, order, i)
        && (number_at(image, l, order, i, n) != number_at(image, l, order, i + 1, n)
            || is_too_many(image, l, ranks, order, i, n))
}

// Do any two neighbours?
fn any_run_fault(image: &[u8], l: usize, ranks: &[u64], order: &[u32], n: usize) -> bool
    requires { OrderNumbered image.now l order.now n × (length ranks.now ≡ n + 1) × (1 ≤ n) }
    ensures { result ≡ any_of (run_fault (size_field_in l (word image.now)) ranks.now order.now) 0 (n - 1) }
{
    (0..n - 1).any(|i| is_run_fault(image, l, ranks, order, i, n))
}

// Do the slots at positions i and i + 1 of the order by key have one key and share a version?
fn is_key_twice(
    ranks: &[u64],
    lows: &[u64],
    highs: &[u64],
    order: &[u32],
    i: usize,
    n: usize,
) -> bool
    requires { (length order.now ≡ n) × (length ranks.now ≡ n + 1) × (length lows.now ≡ n + 1) × NoneOrAll highs.now n × Within order.now
        n × (i + 1 < n) }
    ensures { result ≡ key_twice (key_at lows.now highs.now) ranks.now order.now i }
{
    is_followed(lows, highs, order, i, n) && is_shared(ranks, order, i)
}

// Do any two neighbours?
fn any_key_twice(ranks: &[u64], lows: &[u64], highs: &[u64], order: &[u32], n: usize) -> bool
    requires { (length order.now ≡ n) × (length ranks.now ≡ n + 1) × (length lows.now ≡ n + 1) × NoneOrAll highs.now n × Within order.now
        n × (1 ≤ n) }
    ensures { result ≡ any_of (key_twice (key_at lows.now highs.now) ranks.now order.now) 0 (n - 1) }
{
    (0..n - 1).any(|i| is_key_twice(ranks, lows, highs, order, i, n))
}

// The slots in order by rank and by key, and whether 7 is found along these orders. Where no two slots share a version
// it is not.
pub fn compare(
    image: &[u8],
    l: usize,
    n: usize,
    ranks: &[u64],
    lows: &[u64],
    highs: &[u64],
    order: &mut [u32],
    by_key: &mut [u32],
    scratch: &mut [u32],
) -> bool
    requires { Comparable image.now l n ranks.now lows.now highs.now order.old by_key.old scratch.old }
    ensures result { Compared (size_field_in l (word image.now)) ranks.now lows.now highs.now n
        order.new by_key.new result }
{
    order_by_rank(ranks, order, scratch);
    order_by_key(lows, highs, order, by_key, scratch);
    any_shared(ranks, order, n)
        && (any_run_fault(image, l, ranks, order, n)
            || any_key_twice(ranks, lows, highs, by_key, n))
}
