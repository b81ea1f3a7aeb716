// The value of a record: where its words stand in a slot, and the copy of it, a word a step. `l` is the layout.
ghost use Rattle.std.specs.Prelude.{◌≡◌, ◌++◌, ◌+◌, ◌-◌, ◌*◌, ◌<◌, ◌≤◌, min, length, drop};
ghost use Rattle.words.specs.Word.{word, set_bytes};
ghost use Rattle.layout.specs.Line.{line_a, line_b};
ghost use Rattle.layout.specs.Record.{Layout, limit, value_place, value_word, value_front};
ghost use Rattle.layout.specs.inner.Inside.{SlotInside};
ghost use Rattle.layout.specs.Moved.{words_moved};

use words_code::{read_word, write_part};

// Where word i of a value stands among a slot's 16 words.
#[tactic(auto, unfolding(layout::specs::Record::value_place))]
pub fn value_place(l: usize, i: usize) -> usize
    requires { Layout l × (l + i < 11) }
    ensures result { (result ≡ value_place l i) × (result < 16) }
{
    if l + 2 + i < 7 { l + 2 + i } else { l + 4 + i }
}

// Word i of the value in slot s.
pub fn value_word(image: &[u8], l: usize, s: usize, i: usize) -> u64
    requires { SlotInside image.now l s × (l + i < 11) }
    ensures result { result ≡ value_word l (line_a (word image.now) s) (line_b (word image.now) s) i }
{
    read_word(image, 16 * s + value_place(l, i))
}

// Step i of copying the first n bytes of the value in slot s: word i, or of the last one the bytes that are left. It
// answers the number of the next step, so that the moving itself counts its steps (document 02, A.3).
fn copy_step(image: &[u8], l: usize, s: usize, out: &mut [u8], n: usize, i: usize) -> usize
    requires { SlotInside image.now l s × (8 * i < n) × (n ≤ limit l) × (n ≤ length out.old) }
    ensures { (result ≡ i + 1) ×
        (out.new ≡ set_bytes out.old (8 * i) (min 8 (n - 8 * i))
        (value_word l (line_a (word image.now) s) (line_b (word image.now) s) i)) }
{
    write_part(out, i, n, value_word(image, l, s, i));
    i + 1
}

// The first n bytes of the value in slot s fill the front of out, a word a step. The count of steps.
pub fn copy_value(image: &[u8], l: usize, s: usize, out: &mut [u8], n: usize) -> usize
    requires { SlotInside image.now l s × (n ≤ limit l) × (n ≤ length out.old) }
    ensures result { (result ≡ words_moved n) ×
        (out.new ≡ value_front l (line_a (word image.now) s) (line_b (word image.now) s) n ++ drop n out.old) }
{
    let mut i = 0;
    for _ in 0..n.div_ceil(8) {
        i = copy_step(image, l, s, out, n, i);
    }
    i
}
