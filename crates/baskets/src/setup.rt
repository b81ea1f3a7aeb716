// The lines that set a part of the set by hand.
use crate::item::Named;
use crate::line::Part;
use crate::set::Set;
use orderset::State;
use show::lines::low_half;
use words_code::write_word;

impl Set {
    pub fn set_up_part(&mut self, part: Part) {
        match part {
            Part::Lend { image, heads, next } => {
                self.lent.image = (image % 2177) as usize;
                self.lent.heads = (heads as usize).min(3);
                self.lent.next = (next as usize).min(17);
            }
            Part::Lists { at, value } => {
                self.lent.at = (at as usize).min(130);
                self.lent.value = (value as usize).min(130);
            }
            Part::Word { place, low, high } => {
                if place < 272 {
                    let word = u64::from(low_half(low)) + 4294967296 * u64::from(low_half(high));
                    write_word(&mut self.image, place as usize, word);
                }
            }
            Part::Head { head, slot } => {
                if head < 3 {
                    self.heads[head as usize] = low_half(slot);
                }
            }
            Part::Next { slot, next } => {
                if slot < 17 {
                    self.next[slot as usize] = low_half(next);
                }
            }
            Part::State {
                first,
                last,
                live,
                version,
            } => {
                self.state = State {
                    first: low_half(first),
                    last: low_half(last),
                    live: low_half(live),
                    newest: 0,
                    version,
                };
            }
            Part::Clear => self.basket = Named::default(),
            Part::Item(item) => self.basket.add_item(item),
        }
    }
}
