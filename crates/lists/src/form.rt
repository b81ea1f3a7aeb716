// The calls in their two forms: with two slices of numbers, and with a list of stores.
use crate::image::Image;
use crate::line::KeyLine;
use lists_code::lent::StoreList;
use log_code::{append, recover_log};
use message_log::LogStored;
use orderset::{Action, BasketAnswer, BasketItem, Mode, Refusal, basket, basket2, play_list};

// The items of a basket; every byte of their values is `byte`. Of more than eight only the count is kept.
#[derive(Clone, Copy)]
pub struct Named {
    pub count: usize,
    pub items: [BasketItem; 8],
    pub byte: u8,
}

// No item.
impl Default for Named {
    fn default() -> Named {
        let item = BasketItem {
            action: Action::Write(Mode::Insert),
            low: 0,
            high: 0,
            length: 0,
        };
        Named {
            count: 0,
            items: [item; 8],
            byte: 0,
        }
    }
}

impl Named {
    pub fn name_item(&mut self, line: KeyLine) {
        if 8 < self.count {
            return;
        }
        if self.count < 8 {
            self.items[self.count] = BasketItem {
                action: line.action,
                low: line.low,
                high: line.high,
                length: line.length as usize,
            };
        }
        self.byte = (line.byte % 256) as u8;
        self.count += 1;
    }
}

// What is lent to a call and takes its stores.
pub trait Form {
    fn run_basket_on(&mut self, image: &mut Image, layout: u64, named: &Named) -> BasketAnswer;

    fn append_to(&mut self, area: &[u8], message: &[u8]) -> Result<LogStored, Refusal>;

    fn recover_from(&mut self, area: &[u8]) -> Result<LogStored, Refusal>;

    // Plays so many first stores.
    fn play_first(&self, image: &mut [u8], count: usize) -> Result<(), Refusal>;
}

// Word numbers and values of stores: two lists, as the calls fill them.
#[derive(Clone, Copy)]
pub struct Numbers {
    pub at: [u32; 48],
    pub value: [u64; 48],
}

impl Form for Numbers {
    fn run_basket_on(&mut self, image: &mut Image, layout: u64, named: &Named) -> BasketAnswer {
        let size = image.size;
        let state = image.state;
        let bytes = &image.bytes[..size];
        let heads = &mut image.heads;
        let next = &mut image.next[..];
        let next = &mut next[..size / 128];
        let values = [named.byte; 640];
        let at = &mut self.at;
        let value = &mut self.value;
        if layout == 2 {
            basket2(
                bytes,
                heads,
                next,
                state,
                named.count,
                named.items,
                values,
                at,
                value,
            )
        } else {
            basket(
                bytes,
                heads,
                next,
                state,
                named.count,
                named.items,
                values,
                at,
                value,
            )
        }
    }

    fn append_to(&mut self, area: &[u8], message: &[u8]) -> Result<LogStored, Refusal> {
        append(area, message, &mut self.at, &mut self.value)
    }

    fn recover_from(&mut self, area: &[u8]) -> Result<LogStored, Refusal> {
        recover_log(area, &mut self.at, &mut self.value)
    }

    fn play_first(&self, image: &mut [u8], count: usize) -> Result<(), Refusal> {
        let n = count.min(48);
        play_list(image, &self.at[..n], &self.value[..n])
    }
}

impl Form for StoreList {
    fn run_basket_on(&mut self, image: &mut Image, layout: u64, named: &Named) -> BasketAnswer {
        let size = image.size;
        let state = image.state;
        let bytes = &image.bytes[..size];
        let heads = &mut image.heads;
        let next = &mut image.next[..];
        let next = &mut next[..size / 128];
        let values = [named.byte; 640];
        self.basket_lent(
            layout,
            bytes,
            heads,
            next,
            state,
            named.count,
            named.items,
            values,
        )
    }

    fn append_to(&mut self, area: &[u8], message: &[u8]) -> Result<LogStored, Refusal> {
        self.append_lent(area, message)
    }

    fn recover_from(&mut self, area: &[u8]) -> Result<LogStored, Refusal> {
        self.recover_lent(area)
    }

    fn play_first(&self, image: &mut [u8], count: usize) -> Result<(), Refusal> {
        self.play_stores_lent(image, count)
    }
}
