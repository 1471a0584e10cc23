//! Sums and products that stay at the greatest number of 32 bits.
ghost use Rattle.std.specs.Prelude.{◌≡◌, ◌+◌, ◌*◌, ◌≤◌};
ghost use Rattle.pat_lengths.specs.Lengths.{counted};

/// A sum that stays at the greatest number of 32 bits.
pub fn sum(a: u32, b: u32) -> u32
    ensures { result ≡ counted (a + b) }
{
    (a as u64 + b as u64).min(u32::MAX as u64) as u32
}

/// A product that stays at the greatest number of 32 bits.
pub fn product(a: u32, b: u32) -> u32
    requires { a ≤ 65536 }
    ensures { result ≡ counted (a * b) }
{
    (a as u64 * b as u64).min(u32::MAX as u64) as u32
}
