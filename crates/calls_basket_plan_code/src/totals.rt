// How many keys a basket inserts and how many it removes.
ghost use Rattle.std.specs.Prelude.{◌≡◌, ℕ, ◌≤◌};
ghost use Rattle.calls.specs.BasketRefusals.{inserts_by, removes_by};
ghost use Rattle.calls.specs.inner.Basket.{TotalsOf};

use calls::{BasketItem, Totals};
use index::Action;
use index_read_code::fault::inserts_of;

// 1 for an insert, else 0.
fn inserts_by(action: Action) -> u32
    ensures { result ≡ inserts_by action }
{
    match action {
        Action::Write(mode) => inserts_of(mode),
        Action::Remove => 0,
    }
}

// 1 for a remove, else 0.
fn removes_by(action: Action) -> u32
    ensures { result ≡ removes_by action }
{
    match action {
        Action::Write(_) => 0,
        Action::Remove => 1,
    }
}

// The counts of both.
pub fn totals_of(items: [BasketItem; 8], count: usize) -> Totals
    requires { count ≤ 8 }
    ensures result { (l : ℕ) → TotalsOf l count items result }
{
    let mut inserts = 0;
    let mut removes = 0;
    for item in &items[..count] {
        inserts += inserts_by(item.action);
        removes += removes_by(item.action);
    }
    Totals { inserts, removes }
}
