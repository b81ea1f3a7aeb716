// The refusals of a basket by what is given: its count, its keys and the lengths of the lent lists. `l` is the layout.
ghost use Rattle.std.specs.Prelude.{◌≡◌, List, ℕ, ◌-◌, ◌≤◌, eqb};
ghost use Rattle.layout.specs.Record.{key_with};
ghost use Rattle.calls.specs.BasketItems.{high_in, item_key, changes_from, changes_of};
ghost use Rattle.calls.specs.BasketRefusals.{among, any_twice, key_count_fault, lists_fault, given_fault};

use calls::BasketItem;

// The high word of an item's key: layout 1 has none.
pub fn high_in(l: usize, high: u64) -> u64
    ensures result { result ≡ high_in l high }
{
    if l == 1 { 0 } else { high }
}

// Has the item this key?
fn item_has_key(l: usize, item: BasketItem, low: u64, high: u64) -> bool
    ensures { result ≡ eqb (item_key l item) (key_with low high) }
{
    item.low == low && high_in(l, item.high) == high
}

// Has one of the items from number from on this key?
fn is_among(
    l: usize,
    items: [BasketItem; 8],
    from: usize,
    count: usize,
    low: u64,
    high: u64,
) -> bool
    requires { count ≤ 8 }
    ensures { (values : List ℕ) → result ≡ among (key_with low high) (changes_from l items values from (count - from)) }
{
    (from..count).any(|j| item_has_key(l, items[j], low, high))
}

// Does a key come twice?
fn any_twice(l: usize, items: [BasketItem; 8], count: usize) -> bool
    requires { count ≤ 8 }
    ensures { (values : List ℕ) → result ≡ any_twice (changes_of l count items values) }
{
    (0..count).any(|i| {
        let item = items[i];
        is_among(l, items, i + 1, count, item.low, high_in(l, item.high))
    })
}

// 26 by the count of keys, else 0.
fn key_count_fault(count: usize) -> u32
    ensures { result ≡ key_count_fault count }
{
    if count == 0 {
        return 26;
    }
    if 8 < count {
        return 26;
    }
    0
}

// 13 by the lengths of the two lent lists, else 0.
fn lists_fault(count: usize, at: usize, words: usize) -> u32
    requires { count ≤ 8 }
    ensures { result ≡ lists_fault count at words }
{
    if at < 16 * count {
        return 13;
    }
    if words < 16 * count {
        return 13;
    }
    0
}

// 26, 27 or 13, else 0.
pub fn given_fault(l: usize, count: usize, items: [BasketItem; 8], at: usize, words: usize) -> u32
    ensures result { (values : List ℕ) → result ≡ given_fault (changes_of l count items values) at words }
{
    let number = key_count_fault(count);
    if number != 0 {
        return number;
    }
    if any_twice(l, items, count) {
        return 27;
    }
    lists_fault(count, at, words)
}
