// The stores of a basket, sixteen for each key. `l` is the layout.
ghost use Rattle.std.specs.Prelude.{◌≡◌, length};
ghost use Rattle.words.specs.Word.{word};
ghost use Rattle.stores.specs.Basket.{basket_stores};
ghost use Rattle.stores.specs.Play.{word_numbers, values as values_of};
ghost use Rattle.table.specs.Complete.{size_field_for};
ghost use Rattle.calls.specs.Basket.{kind_by};
ghost use Rattle.calls.specs.BasketBuffers.{at_front};
ghost use Rattle.calls.specs.inner.Basket.{size_by, records_from, StoresInside};

use calls::BasketItem;
use calls_basket_plan_code::given::high_in;
use index::Action;
use stores_record_code::record::record_stores_at;

// The kind of a key's record: 1 for a put, 2 for a remove.
fn kind_by(action: Action) -> u64
    ensures { result ≡ kind_by action }
{
    match action {
        Action::Write(_) => 1,
        Action::Remove => 2,
    }
}

// How many bytes the value in its record has.
fn size_by(action: Action, size: usize) -> usize
    ensures { result ≡ size_by action size }
{
    match action {
        Action::Write(_) => size,
        Action::Remove => 0,
    }
}

// The number in the kind words: a basket of one has 0.
fn number_for(count: usize) -> u64
    ensures { result ≡ size_field_for count }
{
    if count == 1 { 0 } else { count as u64 }
}

// The stores of the records of so many keys fill the fronts of the two lists.
pub fn fill_basket_stores(
    image: &[u8],
    l: usize,
    version: u64,
    count: usize,
    items: [BasketItem; 8],
    values: [u8; 640],
    slots: [u32; 8],
    at: &mut [u32],
    words: &mut [u64],
)
    requires { StoresInside l image.now version count items slots (length at.old) (length words.old) }
    ensures result { (at.new
        ≡ at_front (word_numbers (basket_stores l (word image.now) (size_field_for count) version (records_from l items values slots 0 count)))
        at.old)
        × (words.new
        ≡ at_front (values_of (basket_stores l (word image.now) (size_field_for count) version (records_from l items values slots 0 count)))
        words.old) }
{
    let number = number_for(count);
    for j in 0..count {
        let item = items[j];
        let high = high_in(l, item.high);
        let kind = kind_by(item.action);
        let from = 80 * j;
        let end = from + size_by(item.action, item.length);
        let value = &values[from..end];
        record_stores_at(
            image,
            l,
            slots[j],
            item.low,
            high,
            kind,
            number,
            value,
            version,
            at,
            words,
            16 * j,
        );
    }
}
