// An image with its index, or a log's area.
ghost use Rattle.std.specs.Prelude.{◌≤◌};

use orderset::{State, format, recover, recover2};
use std::io::Stdout;

// The first `size` bytes are lent, and of an image the index: two heads, and a next number for each slot and the header.
#[derive(Clone, Copy)]
pub struct Image {
    pub bytes: [u8; 2176],
    pub size: usize,
    pub heads: [u32; 2],
    pub next: [u32; 17],
    pub state: State,
    ghost within: { size ≤ 2176 },
}

impl Image {
    // Zeros, an area of so many cells.
    pub fn zeros(cells: u64) -> Image {
        Image {
            bytes: [0; 2176],
            size: 448 * (cells % 5) as usize,
            heads: [0; 2],
            next: [0; 17],
            state: State {
                first: 0,
                last: 0,
                live: 0,
                newest: 0,
                version: 0,
            },
        }
    }

    // It becomes a formatted image of so many slots, with the index that recovery leaves; both answers are printed.
    pub fn format_fresh(&mut self, stdout: Stdout, slots: u64, layout: u64) {
        let slots = (slots % 17) as usize;
        let size = 128 * (slots + 1);
        let bytes = &mut self.bytes[..];
        show::formatted(stdout, format(&mut bytes[..size], layout));
        let bytes = &self.bytes[..size];
        let heads = &mut self.heads;
        let next = &mut self.next[..];
        let next = &mut next[..slots + 1];
        let answer = if layout == 2 {
            recover2(bytes, heads, next)
        } else {
            recover(bytes, heads, next)
        };
        show::recovered(stdout, answer.recovered);
        self.state = show::state_after(answer.recovered, self.state);
        self.size = size;
    }

    // In how many first bytes the two are equal.
    pub fn equal_front(&self, other: &Image) -> usize {
        let pairs = self.bytes.iter().zip(other.bytes.iter());
        pairs.take_while(|(a, b)| **a == **b).count()
    }

    // What is lent of it.
    pub fn lent_bytes(&self) -> &[u8] {
        &self.bytes[..self.size]
    }

    // The state and the index, on a line of their own.
    pub fn show_line(&self, stdout: Stdout) {
        show::text(stdout, b"\n ");
        show::state(stdout, self.state);
        show::text(stdout, b" heads");
        show::numbers(stdout, &self.heads);
        show::text(stdout, b" next");
        show::numbers(stdout, &self.next);
    }
}
