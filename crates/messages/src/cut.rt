// What a cut leaves of the stores handed out last: of each line its first ones.
ghost use Rattle.std.specs.Prelude.{◌<◌};

use crate::lent::Log;
use show::lines::decimal_digit;

// Stores are counted by the line of their word in its cell, or by its cell.
#[derive(Clone, Copy)]
pub enum Group {
    Line,
    Cell,
}

impl Group {
    fn number_of(self, word: u32) -> usize {
        let line = word as usize / 8;
        match self {
            Group::Line => line % 7,
            Group::Cell => line / 7,
        }
    }

    // Does store i stand, where so many first ones of each group do?
    fn stands_in_group(self, at: &[u32; 60], i: usize, counts: u64) -> bool
        requires { i < 60 }
    {
        let group = self.number_of(at[i]);
        let before = at[..i]
            .iter()
            .filter(|word| self.number_of(**word) == group)
            .count();
        (before as u64) < decimal_digit(counts, group)
    }
}

impl Log {
    // Of the stores handed out those alone are left that stand.
    pub fn cut_stores(&mut self, group: Group, counts: u64) {
        let at = self.at;
        let value = self.value;
        let mut n = 0;
        for i in 0..self.count.min(60) {
            if group.stands_in_group(&at, i, counts) {
                self.at[n] = at[i];
                self.value[n] = value[i];
                n += 1;
            }
        }
        self.count = n;
    }
}
