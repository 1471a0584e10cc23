// How often a byte stands in a slice.
ghost use Rattle.std.specs.Prelude.{◌≡◌, ◌+◌, ◌==◌, ◌≤◌, length, slice_range, count_by};

use std::simd::prelude::*;

/// How often `b` stands in `bytes`, as a count of at most the length.
pub fn count_byte(bytes: &[u8], b: u8) -> usize
    ensures { result ≡ count_by (λ x. x == b) bytes.now }
{
    let mut at = 0;
    let mut total = 0;
    while 32 <= bytes.len() - at {
        total += count_in(bytes, at, b) as usize;
        at += 32;
    }
    while at < bytes.len() {
        if bytes[at] == b {
            total += 1;
        }
        at += 1;
    }
    total
}

// How often it stands in the 32 bytes from `at` on.
#[inline(always)]
fn count_in(bytes: &[u8], at: usize, b: u8) -> u32
    requires { at + 32 ≤ length bytes.now }
    ensures { result ≡ count_by (λ x. x == b) (slice_range bytes.now at (at + 32)) }
{
    let lanes = u8x32::from_slice(&bytes[at..]);
    lanes.simd_eq(u8x32::splat(b)).to_bitmask().count_ones()
}
