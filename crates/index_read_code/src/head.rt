// The head of a key.
ghost use Rattle.std.specs.Prelude.{◌≡◌, ℕ, ◌<◌, ◌≤◌};
ghost use Rattle.layout.specs.Record.{key_with};
ghost use Rattle.index.specs.Index.{head_of};

// Which of b heads a key with this low word belongs to. Where b is a power of two, its mask gives the remainder.
pub fn head_of(low: u64, b: usize) -> usize
    requires { 1 ≤ b }
    ensures result { (result < b) × ((high : ℕ) → result ≡ head_of (key_with low high) b) }
{
    let mask = b - 1;
    if b & mask == 0 {
        return (low & mask as u64) as usize;
    }
    (low % b as u64) as usize
}
