// The quantities that the steps of the book move.

// What the stores of a step move.
#[derive(Clone, Copy)]
pub enum Moved {
    Ordered(u64),
    Filled(u64),
    Withdrawn(u64),
}

// The quantities that steps moved; and what the stores handed out last move, if a step handed them out and they are not
// played.
#[derive(Clone, Copy)]
pub struct Book {
    pub ordered: u64,
    pub filled: u64,
    pub withdrawn: u64,
    pub waiting: Option<Moved>,
}

impl Book {
    // After a play that was not refused, of all the stores or of some: what they move counts where all stand.
    pub fn play(&mut self, all: bool) {
        match self.waiting.take() {
            Some(moved) if all => self.count(moved),
            _ => {}
        }
    }

    fn count(&mut self, moved: Moved) {
        match moved {
            Moved::Ordered(quantity) => self.ordered = self.ordered.saturating_add(quantity),
            Moved::Filled(quantity) => self.filled = self.filled.saturating_add(quantity),
            Moved::Withdrawn(quantity) => self.withdrawn = self.withdrawn.saturating_add(quantity),
        }
    }
}
