// A list of stores that is lent to each call that takes one.
ghost use Rattle.std.specs.Prelude.{◌≡◌, ◌==◌, if◌then◌else◌, length, take};
ghost use Rattle.index.specs.Index.{index_of};
ghost use Rattle.message_log.specs.LogOutcome.{log_answer, log_list_end};
ghost use Rattle.message_log.specs.Append.{append_list_result};
ghost use Rattle.message_log.specs.Recover.{log_recover_list_result};
ghost use Rattle.calls.specs.Basket.{basket_result};
ghost use Rattle.calls.specs.BasketItems.{changes_of};
ghost use Rattle.calls.specs.BasketList.{basket_list_end, buffers_after_list};
ghost use Rattle.refusals.specs.Number.{fault_in};
ghost use Rattle.stores.specs.Play.{word_numbers, values as values_of, play_end, play_list_result};

use calls::{BasketAnswer, BasketItem};
use calls_basket_list_code::list::{basket_list, basket_list2};
use index::State;
use log_list_code::{append_list, recover_list};
use message_log::LogStored;
use refusals::Refusal;
use stores::Store;
use stores_list_code::play::play_stores;

#[derive(Clone, Copy)]
pub struct StoreList {
    pub stores: [Store; 48],
}

impl StoreList {
    pub fn append_lent(&mut self, area: &[u8], message: &[u8]) -> Result<LogStored, Refusal>
        ensures listed { log_list_end (log_answer result) self.new.stores ≡ append_list_result area.now message.now self.old.stores }
    {
        append_list(area, message, &mut self.stores)
    }

    pub fn recover_lent(&mut self, area: &[u8]) -> Result<LogStored, Refusal>
        ensures listed { log_list_end (log_answer result) self.new.stores ≡ log_recover_list_result area.now self.old.stores }
    {
        recover_list(area, &mut self.stores)
    }

    // A basket in layout 2, or else in layout 1.
    pub fn basket_lent(
        &mut self,
        layout: u64,
        image: &[u8],
        heads: &mut [u32],
        next: &mut [u32],
        state: State,
        count: usize,
        items: [BasketItem; 8],
        values: [u8; 640],
    ) -> BasketAnswer
        ensures listed { let l = (if layout == 2 then 2 else 1) in
            basket_list_end count result self.new.stores heads.new next.new
            ≡ buffers_after_list self.old.stores
            (basket_result l image.now (index_of heads.old next.old state) (changes_of l count items values)
            (length self.old.stores) (length self.old.stores)) }
    {
        let list = &mut self.stores;
        if layout == 2 {
            basket_list2(image, heads, next, state, count, items, values, list)
        } else {
            basket_list(image, heads, next, state, count, items, values, list)
        }
    }

    // So many first stores are played, or all.
    pub fn play_stores_lent(&self, image: &mut [u8], count: usize) -> Result<(), Refusal>
        ensures played { play_end (fault_in result) image.new
            ≡ play_list_result image.old (word_numbers (take count self.now.stores)) (values_of (take count self.now.stores)) }
    {
        play_stores(image, &self.stores[..count.min(48)])
    }
}
