// Play of a lent list of stores.
ghost use Rattle.std.specs.Prelude.{◌≡◌, ◌↔◌, length, IsTrue};
ghost use Rattle.refusals.specs.Number.{fault_in};
ghost use Rattle.stores.specs.Store.{played};
ghost use Rattle.stores.specs.Play.{word_numbers, values, list_fault, play_end, play_list_result};
ghost use Rattle.stores.specs.inner.List.{AllInside};

use refusals::Refusal;
use stores::Store;
use words_code::write_word;

// Are the words of all stores inside len bytes?
fn are_inside(list: &[Store], len: usize) -> bool
    ensures { IsTrue result ↔ AllInside len list.now }
{
    list.iter().all(|store| 8 * store.word as usize + 8 <= len)
}

// The refusal 15, by a list of stores.
fn check_stores(list: &[Store], len: usize) -> Result<(), Refusal>
    ensures { fault_in result ≡ list_fault len (word_numbers list.now) (length (values list.now)) }
{
    if !are_inside(list, len) {
        return Err(Refusal::BadStores);
    }
    Ok(())
}

// All stores of a list are made, in order.
fn make_all(image: &mut [u8], list: &[Store])
    requires { AllInside (length image.old) list.now }
    ensures { image.new ≡ played list.now image.old }
{
    for store in list {
        write_word(image, store.word as usize, store.value);
    }
}

// All stores of a list are made, in order. The refusal 15 changes no byte.
pub fn play_stores(image: &mut [u8], list: &[Store]) -> Result<(), Refusal>
    ensures result { play_end (fault_in result) image.new
        ≡ play_list_result image.old (word_numbers list.now) (values list.now) }
{
    check_stores(list, image.len())?;
    make_all(image, list);
    Ok(())
}
