// The refusals of a basket by what is lent, and by the lengths of its values. `l` is the layout.
ghost use Rattle.std.specs.Prelude.{◌≡◌, List, ℕ, ◌≤◌, length};
ghost use Rattle.layout.specs.Record.{Layout};
ghost use Rattle.calls.specs.BasketRefusals.{value_fault, first_fault, basket_lent_fault};
ghost use Rattle.calls.specs.BasketItems.{changes_of};

use calls::BasketItem;
use index::Action;
use layout_code::header::check_lent;
use layout_fields_code::fields::value_limit;
use refusals::return_code;

// 10 by the length of a value, else 0; a remove has none.
fn value_size_fault(l: usize, action: Action, size: usize) -> u32
    requires { Layout l }
    ensures { result ≡ value_fault l action size }
{
    match action {
        Action::Write(_) => {
            if value_limit(l) < size {
                return 10;
            }
            0
        }
        Action::Remove => 0,
    }
}

// 10 by the first value that is too long, else 0.
fn sizes_fault(l: usize, items: [BasketItem; 8], count: usize) -> u32
    requires { Layout l × (count ≤ 8) }
    ensures { (values : List ℕ) → result ≡ first_fault (λ c. value_fault l c.action (length c.value)) (changes_of l count items values) }
{
    for item in &items[..count] {
        let fault = value_size_fault(l, item.action, item.length);
        if fault != 0 {
            return fault;
        }
    }
    0
}

// 1, 2, 3, 4 or 10, else 0.
pub fn basket_lent_fault(
    image: &[u8],
    l: usize,
    heads: usize,
    next: usize,
    count: usize,
    items: [BasketItem; 8],
) -> u32
    requires { Layout l × (count ≤ 8) }
    ensures result { (values : List ℕ) → result ≡ basket_lent_fault l image.now heads next (changes_of l count items values) }
{
    let lent = return_code(check_lent(image, l, heads, next));
    if lent != 0 {
        return lent;
    }
    sizes_fault(l, items, count)
}
