// The items of the basket to come, and values.
use crate::line::KeyLine;
use orderset::{Action, BasketItem, Mode};

// The items of a basket, with their values from byte 80 * i on; of more than eight only the count is kept. `basket`
// takes a count, eight items and 640 bytes.
#[derive(Clone, Copy)]
pub struct Named {
    pub count: usize,
    pub items: [BasketItem; 8],
    pub values: [u8; 640],
}

// No item.
impl Default for Named {
    fn default() -> Named {
        let item = BasketItem {
            action: Action::Write(Mode::Insert),
            low: 0,
            high: 0,
            length: 0,
        };
        Named {
            count: 0,
            items: [item; 8],
            values: [0; 640],
        }
    }
}

// Byte i of the value becomes byte + i.
pub fn fill_rising(value: &mut [u8], byte: u64) {
    let mut next = (byte % 256) as u8;
    for b in value.iter_mut() {
        *b = next;
        next = next.wrapping_add(1);
    }
}

impl Named {
    pub fn add_item(&mut self, line: KeyLine) {
        if 8 < self.count {
            return;
        }
        if self.count < 8 {
            self.items[self.count] = BasketItem {
                action: line.action,
                low: line.low,
                high: line.high,
                length: line.length as usize,
            };
            let start = 80 * self.count;
            let values = &mut self.values[..];
            fill_rising(&mut values[start..start + 80], line.byte);
        }
        self.count += 1;
    }
}
