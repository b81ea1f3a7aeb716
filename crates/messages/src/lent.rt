// The log that the lines work on: an area of at most three cells, and two lists with the stores handed out last. A call
// may be lent less than all of it.
ghost use Rattle.std.specs.Prelude.{◌≤◌};

// How many bytes, word numbers and values a call is lent, the first ones of each.
#[derive(Clone, Copy)]
pub struct Fronts {
    pub area: usize,
    pub at: usize,
    pub value: usize,
    ghost within: { (area ≤ 1344) × (at ≤ 60) × (value ≤ 60) },
}

// The calls fill two slices, so the stores are two lists with one count.
#[derive(Drop)]
pub struct Log {
    pub area: [u8; 1344],
    pub at: [u32; 60],
    pub value: [u64; 60],
    pub count: usize,
    pub lent: Fronts,
}

// The area is zeros, every entry of the lists is 9, and nothing is lent.
impl Default for Log {
    fn default() -> Log {
        Log {
            area: [0; 1344],
            at: [9; 60],
            value: [9; 60],
            count: 0,
            lent: Fronts {
                area: 0,
                at: 0,
                value: 0,
            },
        }
    }
}

impl Log {
    pub fn lend_fronts(&mut self, area: u64, at: u64, value: u64) {
        self.lent = Fronts {
            area: (area % 1345) as usize,
            at: (at as usize).min(60),
            value: (value as usize).min(60),
        };
    }

    // So many bytes from this place on are set to one.
    pub fn fill_area(&mut self, place: u64, count: u64, byte: u64) {
        let bytes = self.area.iter_mut().skip(place as usize);
        for b in bytes.take(count as usize) {
            *b = (byte % 256) as u8;
        }
    }
}
