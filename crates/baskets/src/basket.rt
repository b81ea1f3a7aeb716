// The basket of the items that were named.
use crate::handed::Lines;
use crate::item::Named;
use crate::set::Set;
use orderset::{BasketOutcome, basket};
use std::io::Stdout;

impl Set {
    // Of a basket with its answer the stores, sixteen for each key, are handed out and no item is left.
    pub fn run_basket(&mut self, stdout: Stdout) {
        let lent = self.lent;
        let named = self.basket;
        let heads = &mut self.heads[..];
        let next = &mut self.next[..];
        let at = &mut self.handed.at[..];
        let value = &mut self.handed.value[..];
        let answer = basket(
            &self.image[..lent.image],
            &mut heads[..lent.heads],
            &mut next[..lent.next],
            self.state,
            named.count,
            named.items,
            named.values,
            &mut at[..lent.at],
            &mut value[..lent.value],
        );
        self.state = answer.state;
        self.handed.lines = Lines::EightStores;
        match answer.outcome {
            BasketOutcome::Stored { version } => {
                let keys = named.count.min(8);
                let _ = print!(stdout; " ok {version}");
                show::numbers(stdout, &answer.slots[..keys]);
                self.handed.count = 16 * keys;
                self.basket = Named::default();
            }
            BasketOutcome::Refused(number) => {
                show::refused(stdout, number);
                self.handed.count = 0;
            }
        }
        show::state(stdout, self.state);
        self.show_lent_index(stdout);
    }
}
