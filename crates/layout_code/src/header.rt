// Sizes and the header: the refusals 1, 2, 3 and 4.
ghost use Rattle.std.specs.Prelude.{◌≡◌, not, ◌+◌, ◌≤◌, eqb, length, IfOk};
ghost use Rattle.refusals.specs.Number.{fault_in};
ghost use Rattle.words.specs.Word.{word};
ghost use Rattle.prelude.specs.Range.{any_of};
ghost use Rattle.layout.specs.Size.{slots_of, slots_in};
ghost use Rattle.layout.specs.Header.{header_word, header_fault, image_fault, index_fault, lent_fault};

use refusals::Refusal;
use words_code::read_word;

// The slots of an image of len bytes, or 0 where no image has that length. The length is turned by seven bits, so that
// one range tests it: a remainder by 128 makes the number large.
pub fn slot_count(len: usize) -> usize
    ensures result { result ≡ slots_of len }
{
    let turned = len / 128 + len % 128 * 144115188075855872;
    match turned {
        3..=65536 => turned - 1,
        _ => 0,
    }
}

// Is one of the words 2 to 7 of the header other than zero?
fn rest_differs(image: &[u8]) -> bool
    requires { 64 ≤ length image.now }
    ensures { result ≡ any_of (λ i. not (eqb (word image.now i) 0)) 2 6 }
{
    let bits = read_word(image, 2)
        | read_word(image, 3)
        | read_word(image, 4)
        | read_word(image, 5)
        | read_word(image, 6)
        | read_word(image, 7);
    bits != 0
}

// Is a word of the header other than laid down?
fn header_differs(image: &[u8], l: usize, n: u64) -> bool
    requires { 64 ≤ length image.now }
    ensures { result ≡ any_of (λ i. not (eqb (word image.now i) (header_word l n i))) 0 8 }
{
    if read_word(image, 0) != n {
        return true;
    }
    if read_word(image, 1) != l as u64 {
        return true;
    }
    rest_differs(image)
}

// The refusals 2 and 3, by the header.
fn check_header(image: &[u8], l: usize, n: u64) -> Result<(), Refusal>
    requires { (64 ≤ length image.now) × (1 ≤ n) }
    ensures { fault_in result ≡ header_fault l n (word image.now) }
{
    if !header_differs(image, l, n) {
        return Ok(());
    }
    if read_word(image, 0) == 0 {
        return Err(Refusal::NotFormatted);
    }
    Err(Refusal::BadHeader)
}

// The number of slots, or the refusal 1, 2 or 3 by the image alone.
pub fn check_image(image: &[u8], l: usize) -> Result<usize, Refusal>
    ensures fault { fault_in result ≡ image_fault l image.now }
    ensures slots { IfOk result (λ n. n ≡ slots_in image.now) }
{
    let n = slot_count(image.len());
    if n == 0 {
        return Err(Refusal::BadImageLength);
    }
    check_header(image, l, n as u64)?;
    Ok(n)
}

// The refusal 4, by the sizes of the index.
pub fn check_index(n: usize, heads: usize, next: usize) -> Result<(), Refusal>
    requires { n ≤ 65535 }
    ensures result { fault_in result ≡ index_fault n heads next }
{
    if heads < 1 || 65536 < heads || next != n + 1 {
        return Err(Refusal::BadIndexLength);
    }
    Ok(())
}

// The number of slots, or the refusal 1, 2, 3 or 4 by what is lent.
pub fn check_lent(image: &[u8], l: usize, heads: usize, next: usize) -> Result<usize, Refusal>
    ensures fault { fault_in result ≡ lent_fault l image.now heads next }
    ensures slots { IfOk result (λ n. n ≡ slots_in image.now) }
{
    let n = check_image(image, l)?;
    check_index(n, heads, next)?;
    Ok(n)
}
