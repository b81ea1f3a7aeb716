// An order's bytes, and the order in bytes.
ghost use Rattle.std.specs.Prelude.{◌≡◌, [], ◌∷◌, ◌<◌, length};
ghost use Rattle.prelude.specs.Answer.{gives};
ghost use Rattle.book.specs.Orders.{order_bytes, is_state};
ghost use Rattle.book.specs.Steps.{sought_in};
ghost use Rattle.book.specs.inner.Courses.{seek_says, sought_with};

use book::{Order, Seek};
use words_code::{read_word, write_word};

// The bytes of an order.
pub fn order_bytes(order: Order) -> [u8; 24]
    ensures result { result ≡ order_bytes order }
{
    let mut bytes = [0u8; 24];
    write_word(&mut bytes, 0, order.state);
    write_word(&mut bytes, 1, order.ordered);
    write_word(&mut bytes, 2, order.filled);
    bytes
}

// Is it the state of an order?
fn is_state(state: u64) -> bool
    ensures { result ≡ is_state state }
{
    state == 1 || state == 2
}

// The order with these words, or 18 where they are no book record's.
fn order_with(state: u64, ordered: u64, filled: u64) -> Seek
    ensures { seek_says result ≡ sought_with state ordered filled }
{
    if !is_state(state) || ordered <= filled {
        return Seek::Missing(18);
    }
    Seek::Found(Order {
        state,
        ordered,
        filled,
    })
}

// The order in the first n bytes, or 18 where they are no book record.
pub fn order_in(bytes: &[u8], n: usize) -> Seek
    requires { 24 < length bytes.now }
    ensures result { seek_says result ≡ sought_in bytes.now (gives (n ∷ [])) }
{
    if n != 24 {
        return Seek::Missing(18);
    }
    order_with(
        read_word(bytes, 0),
        read_word(bytes, 1),
        read_word(bytes, 2),
    )
}
