// Refusals as a return code.
ghost use Rattle.std.specs.Prelude.{◌≡◌, ◌+◌, ◌*◌, ◌^◌};

// A refusal's number with a second number, which counts 2^32 each.
pub fn refused_with(number: u32, second: u32) -> u64
    ensures result { result ≡ number + 2 ^ 32 * second }
{
    number as u64 + 4294967296 * (second as u64)
}
