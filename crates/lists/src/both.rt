// What the lines work on: two sides, each an image with its index or a log's area. The first is changed by the forms
// with number slices, the second by those with a list of stores.
use crate::form::{Form, Named, Numbers};
use crate::image::Image;
use lists_code::lent::StoreList;
use message_log::LogStored;
use orderset::{BasketOutcome, Refusal, Store, return_code};
use std::io::Stdout;

// An image or an area, and the lists of stores in the form of the calls on this side.
#[derive(Clone, Copy)]
pub struct Side<F> {
    pub image: Image,
    pub handed: F,
}

impl<F: Form> Side<F> {
    // A basket; its answer is printed. How many stores were handed out.
    fn show_basket(&mut self, stdout: Stdout, layout: u64, named: &Named) -> usize {
        let answer = self.handed.run_basket_on(&mut self.image, layout, named);
        self.image.state = answer.state;
        match answer.outcome {
            BasketOutcome::Stored { version } => {
                let keys = named.count % 4;
                let _ = print!(stdout; " ok {version}");
                show::numbers(stdout, &answer.slots[..keys]);
                16 * keys
            }
            BasketOutcome::Refused(number) => {
                show::refused(stdout, number);
                0
            }
        }
    }

    // The same of a call of the log.
    fn show_log_append(&mut self, stdout: Stdout, message: &[u8]) -> usize {
        let answer = self.handed.append_to(self.image.lent_bytes(), message);
        show_log_form(stdout, answer)
    }

    fn show_log_recovery(&mut self, stdout: Stdout) -> usize {
        let answer = self.handed.recover_from(self.image.lent_bytes());
        show_log_form(stdout, answer)
    }

    fn show_play(&mut self, stdout: Stdout, count: usize) {
        let size = self.image.size;
        let bytes = &mut self.image.bytes[..];
        let answer = self.handed.play_first(&mut bytes[..size], count);
        show::number(stdout, u64::from(return_code(answer)));
    }
}

// The answer of a call of the log is printed; how many stores were handed out.
fn show_log_form(stdout: Stdout, answer: Result<LogStored, Refusal>) -> usize {
    match answer {
        Ok(LogStored { number, count }) => {
            let _ = print!(stdout; " ok {number} {count}");
            count
        }
        Err(refusal) => {
            show::refused(stdout, refusal.code());
            0
        }
    }
}

// `count` first entries of the two number lists, and of the list of stores, were handed out last.
#[derive(Drop)]
pub struct Both {
    pub layout: u64,
    pub first: Side<Numbers>,
    pub second: Side<StoreList>,
    pub count: usize,
    pub basket: Named,
}

// Nothing is lent, no item is named, and every entry of the lists is 9.
impl Default for Both {
    fn default() -> Both {
        let image = Image::zeros(0);
        Both {
            layout: 1,
            first: Side {
                image,
                handed: Numbers {
                    at: [9; 48],
                    value: [9; 48],
                },
            },
            second: Side {
                image,
                handed: StoreList {
                    stores: [Store { word: 9, value: 9 }; 48],
                },
            },
            count: 0,
            basket: Named::default(),
        }
    }
}

impl Both {
    fn put_image(&mut self, image: Image) {
        self.first.image = image;
        self.second.image = image;
        self.count = 0;
    }

    pub fn format_both(&mut self, stdout: Stdout, slots: u64, layout: u64) {
        let mut image = Image::zeros(0);
        image.format_fresh(stdout, slots, layout);
        self.put_image(image);
        self.layout = layout;
        self.basket = Named::default();
    }

    pub fn make_area(&mut self, cells: u64) {
        self.put_image(Image::zeros(cells));
    }

    // The first entry in which the lists differ, or their size.
    fn first_other(&self) -> usize {
        let numbers = &self.first.handed;
        let pairs = numbers.at.iter().zip(numbers.value.iter());
        pairs
            .zip(self.second.handed.stores.iter())
            .position(|((word, value), store)| *word != store.word || *value != store.value)
            .unwrap_or(48)
    }

    // In how many first entries the lists are equal.
    fn show_equal(&self, stdout: Stdout) {
        let equal = self.first_other();
        let _ = print!(stdout; " equal {equal}");
    }

    // One entry of the lists: word number and value of each form.
    pub fn show_entry(&self, stdout: Stdout, place: u64) {
        if place < 48 {
            let place = place as usize;
            let word = self.first.handed.at[place];
            let value = self.first.handed.value[place];
            let store = self.second.handed.stores[place];
            let _ = print!(stdout; " {word} {value} {} {}", store.word, store.value);
        }
    }

    // Both answers, in how many first entries the lists are equal, and the two states and indexes.
    pub fn run_both_baskets(&mut self, stdout: Stdout) {
        self.count = self.first.show_basket(stdout, self.layout, &self.basket);
        self.second.show_basket(stdout, self.layout, &self.basket);
        self.show_equal(stdout);
        self.first.image.show_line(stdout);
        self.second.image.show_line(stdout);
        self.basket = Named::default();
    }

    // A message of so many bytes: both answers, and in how many first entries the lists are equal.
    pub fn append_both(&mut self, stdout: Stdout, length: u64, byte: u64) {
        let message = [(byte % 256) as u8; 400];
        let message = &message[..(length % 401) as usize];
        self.count = self.first.show_log_append(stdout, message);
        self.second.show_log_append(stdout, message);
        self.show_equal(stdout);
    }

    pub fn recover_both(&mut self, stdout: Stdout) {
        self.count = self.first.show_log_recovery(stdout);
        self.second.show_log_recovery(stdout);
        self.show_equal(stdout);
    }

    // Of the stores handed out last only so many first ones are left.
    pub fn keep_stores(&mut self, count: u64) {
        self.count = self.count.min(count as usize);
    }

    // Both answers, and in how many first bytes the two are equal.
    pub fn play_both(&mut self, stdout: Stdout) {
        if self.count == 0 {
            return;
        }
        self.first.show_play(stdout, self.count);
        self.second.show_play(stdout, self.count);
        let equal = self.first.image.equal_front(&self.second.image);
        let _ = print!(stdout; " equal {equal}");
    }
}
