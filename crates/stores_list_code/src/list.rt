// Stores are put at the front of a lent list.
ghost use Rattle.std.specs.Prelude.{◌≡◌, ◌≤◌, length};
ghost use Rattle.stores.specs.inner.List.{stores_put};

use stores::Store;

// The first count elements become the stores that at and words name.
pub fn fill_store_list(list: &mut [Store], at: &[u32], words: &[u64], count: usize)
    requires { (count ≤ length list.old) × (count ≤ length at.now) × (count ≤ length words.now) }
    ensures result { list.new ≡ stores_put at.now words.now count list.old }
{
    for i in 0..count {
        list[i] = Store {
            word: at[i],
            value: words[i],
        };
    }
}
