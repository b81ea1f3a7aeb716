// The stores handed out last: putting them into the lists, plays, cuts and printing.
ghost use Rattle.std.specs.Prelude.{◌≡◌, ◌<◌, ◌≤◌, length};

use show::lines::decimal_digit;
use std::io::Stdout;

// How the stores are on lines: each invalidating store on one of its own, those of a change eight to a line.
#[derive(Clone, Copy)]
pub enum Lines {
    OneStore,
    EightStores,
}

impl Lines {
    fn stores_each(self) -> usize
        ensures { 0 < result }
    {
        match self {
            Lines::OneStore => 1,
            Lines::EightStores => 8,
        }
    }
}

// Word numbers and values, in two lists as the calls fill them; `count` first entries were handed out last.
#[derive(Clone, Copy)]
pub struct Handed {
    pub at: [u32; 130],
    pub value: [u64; 130],
    pub count: usize,
    pub lines: Lines,
    ghost within: { count ≤ 130 },
}

impl Handed {
    // These stores come to the front of the lists.
    pub fn put_front(&mut self, at: &[u32], value: &[u64], lines: Lines)
        requires fits { length at.now ≤ 130 }
        requires paired { length value.now ≡ length at.now }
    {
        let n = at.len();
        let front = &mut self.at[..];
        front[..n].copy_from_slice(at);
        let front = &mut self.value[..];
        front[..n].copy_from_slice(value);
        self.count = n;
        self.lines = lines;
    }

    // Does store i stand, after a cut that leaves so many of each line?
    fn stands_on_line(&self, i: usize, counts: u64) -> bool {
        let each = self.lines.stores_each();
        let lines = self.count / each;
        let line = i / each;
        line < lines && ((i % each) as u64) < decimal_digit(counts, lines - 1 - line)
    }

    // The stores that stand after a cut.
    pub fn standing(&self, counts: u64) -> Handed {
        let mut at = self.at;
        let mut value = self.value;
        let mut n = 0;
        for i in 0..self.count {
            if self.stands_on_line(i, counts) {
                at[n] = self.at[i];
                value[n] = self.value[i];
                n += 1;
            }
        }
        Handed {
            at,
            value,
            count: n,
            lines: self.lines,
        }
    }

    pub fn show_front(&self, stdout: Stdout, count: usize) {
        let n = count.min(130);
        show::numbers(stdout, &self.at[..n]);
        show::text(stdout, b"\n ");
        show::values(stdout, &self.value[..n]);
    }
}
