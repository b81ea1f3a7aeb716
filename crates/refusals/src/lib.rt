// Why a call is not carried out: the error of the functions that answer a Result.

#![tactic(auto)]

ghost use Rattle.std.specs.Prelude.{◌≡◌};
ghost use Rattle.refusals.specs.Number.{code_of, fault_in};

// Each refusal has the number that C callers get. Numbers 12 and from 34 on are not used.
#[derive(Clone, Copy, Debug, PartialEq, Eq)]
pub enum Refusal {
    BadImageLength = 1,
    NotFormatted = 2,
    BadHeader = 3,
    BadIndexLength = 4,
    BadMark = 5,
    BadKindBits = 6,
    VersionShared = 7,
    NoSpareSlot = 8,
    Exhausted = 9,
    ValueTooLong = 10,
    IndexMismatch = 11,
    BufferTooShort = 13,
    CountTooHigh = 14,
    BadStores = 15,
    BadLine = 16,
    NewKeyExists = 17,
    NoOrder = 18,
    BadQuantity = 19,
    KeyExists = 20,
    KeyMissing = 21,
    BadKind = 22,
    BadValueLength = 23,
    BadTail = 24,
    TooManyBroken = 25,
    BadBasket = 26,
    KeyTwice = 27,
    Full = 28,
    BadMessage = 29,
    BadLogLength = 30,
    NoMessage = 31,
    BadLayout = 32,
    BadLineLength = 33,
}

impl Refusal {
    // The number that C callers get.
    pub fn code(self) -> u32
        ensures result { result ≡ code_of self }
    {
        self as u32
    }
}

// The number of the refusal, 0 for a call that is done.
pub fn return_code<T: Copy>(done: Result<T, Refusal>) -> u32
    ensures result { result ≡ fault_in done }
{
    match done {
        Ok(_) => 0,
        Err(refusal) => refusal.code(),
    }
}
