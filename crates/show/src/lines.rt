// Lines of the input: a name, and up to four numbers after it.
ghost use Rattle.std.specs.Prelude.{◌≡◌, ◌≤◌, length, take};
ghost use Rattle.show.specs.Fronts.{IsPrefixLen};

// The place of the first byte below this bound at or after `from`, or the length.
pub fn until(list: &[u8], from: usize, bound: u8) -> usize
    requires { from ≤ length list.now }
    ensures lower_bound { from ≤ result }
    ensures prefix_len { IsPrefixLen result list.now }
{
    let rest = &list[from..];
    from + rest
        .iter()
        .position(|&byte| byte < bound)
        .unwrap_or(rest.len())
}

// The number with one digit more; other bytes, and digits after the nineteenth, are left out.
fn with_digit(n: u64, byte: u8) -> u64 {
    match byte {
        b'0'..=b'9' if n < 1_000_000_000_000_000_000 => n * 10 + u64::from(byte - b'0'),
        _ => n,
    }
}

// The numbers of a line; the first is number 1.
pub fn parse_numbers(line: &[u8]) -> [u64; 5] {
    let mut numbers = [0; 5];
    for (number, word) in numbers.iter_mut().zip(line.split(|&byte| byte == b' ')) {
        *number = word.iter().fold(0, |n, &byte| with_digit(n, byte));
    }
    numbers
}

// Digit i of a number, from the last; 0 past the nineteenth.
pub fn decimal_digit(n: u64, i: usize) -> u64 {
    match i {
        0..=18 => (0..i).fold(n, |rest, _| rest / 10) % 10,
        _ => 0,
    }
}

// A line without the byte below 11 that ends it, if there is one.
pub fn without_end(line: &[u8]) -> &[u8]
    ensures front { result.now ≡ take (length result.now) line.now }
{
    match line {
        [front @ .., 0..=10] => front,
        _ => line,
    }
}

// Does the line end in a colon?
pub fn is_asked(line: &[u8]) -> bool {
    line.last() == Some(&b':')
}

// The low 32 bits of a number.
pub fn low_half(n: u64) -> u32 {
    (n & 0xffff_ffff) as u32
}
