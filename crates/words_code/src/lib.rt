// Words of 8 bytes, low byte first, in a lent slice of bytes.

#![tactic(auto)]

ghost use Rattle.std.specs.Prelude.{◌≡◌, ◌+◌, ◌-◌, ◌*◌, ◌≤◌, max, min, length, get_or};
ghost use Rattle.words.specs.Word.{joined, word, set_bytes, set_word};

// The lesser of two numbers.
pub fn lesser(a: usize, b: usize) -> usize
    ensures result { result ≡ min a b }
{
    a.min(b)
}

// The greater of two numbers.
pub fn greater(a: u64, b: u64) -> u64
    ensures result { result ≡ max a b }
{
    a.max(b)
}

// The number whose bytes are b0 to b7, low byte first.
pub fn join(b0: u8, b1: u8, b2: u8, b3: u8, b4: u8, b5: u8, b6: u8, b7: u8) -> u64
    ensures result { result ≡ joined b0 b1 b2 b3 b4 b5 b6 b7 }
{
    u64::from_le_bytes([b0, b1, b2, b3, b4, b5, b6, b7])
}

// Word i of the image. An index for each byte: for std's copy_from_slice of eight bytes the compiler makes a test whether
// the two places overlap, at each word.
pub fn read_word(image: &[u8], i: usize) -> u64
    requires { 8 * i + 8 ≤ length image.now }
    ensures result { result ≡ word image.now i }
{
    let at = 8 * i;
    join(
        image[at],
        image[at + 1],
        image[at + 2],
        image[at + 3],
        image[at + 4],
        image[at + 5],
        image[at + 6],
        image[at + 7],
    )
}

// Word i of the image becomes v, byte by byte for the reason of `read_word`.
pub fn write_word(image: &mut [u8], i: usize, v: u64)
    requires { 8 * i + 8 ≤ length image.old }
    ensures result { image.new ≡ set_word image.old i v }
{
    let at = 8 * i;
    let bytes = v.to_le_bytes();
    image[at] = bytes[0];
    image[at + 1] = bytes[1];
    image[at + 2] = bytes[2];
    image[at + 3] = bytes[3];
    image[at + 4] = bytes[4];
    image[at + 5] = bytes[5];
    image[at + 6] = bytes[6];
    image[at + 7] = bytes[7];
}

// The first n bytes of v are stored from position at on, byte by byte for the reason of `read_word`.
fn write_bytes(image: &mut [u8], at: usize, n: usize, v: u64)
    requires { at + n ≤ length image.old }
    ensures { image.new ≡ set_bytes image.old at n v }
{
    let mut rest = v;
    for k in 0..n {
        image[at + k] = (rest % 256) as u8;
        rest /= 256;
    }
}

// Word i of the first n bytes becomes v: a whole word, or the bytes of it that are among them.
pub fn write_part(image: &mut [u8], i: usize, n: usize, v: u64)
    requires { (8 * i ≤ n) × (n ≤ length image.old) }
    ensures result { image.new ≡ set_bytes image.old (8 * i) (min 8 (n - 8 * i)) v }
{
    if i < n / 8 {
        write_word(image, i, v);
        return;
    }
    let left = n % 8;
    write_bytes(image, n - left, left, v);
}

// Word i of the value, with zeros past its end: a whole word, no byte of one, or the bytes that there are.
pub fn padded_word(value: &[u8], i: usize) -> u64
    requires { i ≤ 65536 }
    ensures result { result ≡ word value.now i }
{
    let at = 8 * i;
    if at + 8 <= value.len() {
        return read_word(value, i);
    }
    if value.len() <= at {
        return 0;
    }
    let byte = |j: usize| value.get(at + j).copied().unwrap_or(0);
    join(
        byte(0),
        byte(1),
        byte(2),
        byte(3),
        byte(4),
        byte(5),
        byte(6),
        byte(7),
    )
}
