// Rules on a line's mark and stamp, as functions of numbers.
ghost use Rattle.std.specs.Prelude.{◌≡◌, ◌<◌, ◌^◌};
ghost use Rattle.refusals.specs.Number.{fault_in};
ghost use Rattle.layout.specs.Line.{version_of, whole, first_word, last_word_of, whole_version, version_fault};

use refusals::Refusal;

// Is a line with this mark and stamp whole?
pub fn is_whole(mark: u64, stamp: u64) -> bool
    ensures result { result ≡ whole mark stamp }
{
    mark == stamp % 2
}

// The version in a stamp.
pub fn version_of(stamp: u64) -> u64
    ensures result { result ≡ version_of stamp }
{
    stamp / 2
}

// The first word to store over a line that carries this stamp.
pub fn first_word(stamp: u64) -> u64
    ensures result { result ≡ first_word stamp }
{
    1 - stamp % 2
}

// The last word to store over a line that carries this stamp.
pub fn last_word(stamp: u64, version: u64) -> u64
    requires { version < 2 ^ 63 }
    ensures result { result ≡ last_word_of stamp version }
{
    version * 2 + (1 - stamp % 2)
}

// The version on a whole line, 0 on an open one.
#[tactic(auto, unfolding(layout::specs::Line::whole_version))]
pub fn line_top(mark: u64, stamp: u64) -> u64
    ensures result { result ≡ whole_version mark stamp }
{
    if is_whole(mark, stamp) {
        version_of(stamp)
    } else {
        0
    }
}

// The refusal 9, of a next version that cannot be written.
pub fn check_version(version: u64) -> Result<(), Refusal>
    ensures result { fault_in result ≡ version_fault version }
{
    if 9223372036854775808 <= version {
        return Err(Refusal::Exhausted);
    }
    Ok(())
}
