// A line of input is read byte by byte, so that it may have any length.
ghost use Rattle.std.specs.Prelude.{◌≡◌, ◌<◌};
ghost use Rattle.text.specs.Forms.{with_one, with_two};
ghost use Rattle.text.specs.Parsing.{add_byte, add_digit, next_number, after_space, after_other, fed, end_one, end_two, line_read, with_digit as appendedTo};

use text::{Digits, Line, Parse};

// The number n followed by a digit.
#[tactic(auto, unfolding(text::specs::Parsing::with_digit))]
fn append_digit(n: u64, digit: u64) -> Digits
    requires { digit < 10 }
    ensures { result ≡ appendedTo n digit }
{
    match n.checked_mul(10).and_then(|tens| tens.checked_add(digit)) {
        Some(value) => Digits::Value(value),
        None => Digits::NotNumber,
    }
}

// One more digit of a number.
#[tactic(auto, unfolding(text::specs::Parsing::add_digit))]
fn add_digit(digits: Digits, digit: u64) -> Digits
    requires { digit < 10 }
    ensures { result ≡ add_digit digits digit }
{
    match digits {
        Digits::NoDigit => Digits::Value(digit),
        Digits::Value(n) => append_digit(n, digit),
        Digits::NotNumber => Digits::NotNumber,
    }
}

// One more byte of a number.
#[tactic(auto, unfolding(text::specs::Parsing::add_byte, text::specs::Forms::is_digit))]
fn add_number_byte(digits: Digits, byte: u8) -> Digits
    ensures { result ≡ add_byte digits byte }
{
    match byte {
        b'0'..=b'9' => add_digit(digits, u64::from(byte - b'0')),
        _ => Digits::NotNumber,
    }
}

// The space after the first number.
#[tactic(auto, unfolding(text::specs::Parsing::next_number))]
fn next_number(letter: u8, digits: Digits) -> Parse
    ensures { result ≡ next_number letter digits }
{
    match digits {
        Digits::Value(first) => Parse::Second {
            letter,
            first,
            digits: Digits::NoDigit,
        },
        Digits::NoDigit | Digits::NotNumber => Parse::NotLine,
    }
}

// A space comes next.
#[tactic(auto, unfolding(text::specs::Parsing::after_space))]
fn after_space(parse: Parse) -> Parse
    ensures { result ≡ after_space parse }
{
    match parse {
        Parse::Letter(letter) => Parse::First {
            letter,
            digits: Digits::NoDigit,
        },
        Parse::First { letter, digits } => next_number(letter, digits),
        Parse::Start | Parse::Second { .. } | Parse::NotLine => Parse::NotLine,
    }
}

// A byte comes next that is no space.
#[tactic(auto, unfolding(text::specs::Parsing::after_other))]
fn after_other(parse: Parse, byte: u8) -> Parse
    ensures { result ≡ after_other parse byte }
{
    match parse {
        Parse::Start => Parse::Letter(byte),
        Parse::First { letter, digits } => Parse::First {
            letter,
            digits: add_number_byte(digits, byte),
        },
        Parse::Second {
            letter,
            first,
            digits,
        } => Parse::Second {
            letter,
            first,
            digits: add_number_byte(digits, byte),
        },
        Parse::Letter(_) | Parse::NotLine => Parse::NotLine,
    }
}

// One more byte of the line.
#[tactic(auto, unfolding(text::specs::Parsing::fed))]
pub fn feed(parse: Parse, byte: u8) -> Parse
    ensures result { result ≡ fed parse byte }
{
    match byte {
        b' ' => after_space(parse),
        _ => after_other(parse, byte),
    }
}

// The line of a letter and one number.
#[tactic(auto, unfolding(text::specs::Forms::with_one))]
fn with_one(letter: u8, n: u64) -> Line
    ensures { result ≡ with_one letter n }
{
    match letter {
        b'n' => Line::New(n),
        b'r' => Line::Remove(n),
        b'g' => Line::Get(n),
        _ => Line::Bad,
    }
}

// The line of a letter and two numbers.
#[tactic(auto, unfolding(text::specs::Forms::with_two))]
fn with_two(letter: u8, first: u64, second: u64) -> Line
    ensures { result ≡ with_two letter first second }
{
    match letter {
        b'p' => Line::Write {
            key: first,
            word: second,
        },
        b'c' => Line::Cut {
            a: first,
            b: second,
        },
        _ => Line::Bad,
    }
}

// The line ends in its first number.
#[tactic(auto, unfolding(text::specs::Parsing::end_one))]
fn end_one(letter: u8, digits: Digits) -> Line
    ensures { result ≡ end_one letter digits }
{
    match digits {
        Digits::Value(n) => with_one(letter, n),
        Digits::NoDigit | Digits::NotNumber => Line::Bad,
    }
}

// The line ends in its second number.
#[tactic(auto, unfolding(text::specs::Parsing::end_two))]
fn end_two(letter: u8, first: u64, digits: Digits) -> Line
    ensures { result ≡ end_two letter first digits }
{
    match digits {
        Digits::Value(n) => with_two(letter, first, n),
        Digits::NoDigit | Digits::NotNumber => Line::Bad,
    }
}

// The line ends here.
#[tactic(auto, unfolding(text::specs::Parsing::line_read))]
pub fn finish(parse: Parse) -> Line
    ensures result { result ≡ line_read parse }
{
    match parse {
        Parse::First { letter, digits } => end_one(letter, digits),
        Parse::Second {
            letter,
            first,
            digits,
        } => end_two(letter, first, digits),
        Parse::Start | Parse::Letter(_) | Parse::NotLine => Line::Bad,
    }
}
