// Runs of characters of ASCII within a line.
ghost use Rattle.std.specs.Prelude.{◌≤◌, length};
ghost use Rattle.byte_lanes.specs.Places.{IsLeast};
ghost use Rattle.byte_lanes.specs.Plain.{IsOther};

use crate::lanes::{at_least, at_most, either, load};
use crate::scan;
use crate::scan::Probe;
use std::simd::prelude::*;

/// The least place of `bytes` at or past `from` whose byte isn't one from 14 to 127, and the length where there is
/// none. Such a byte is a character of ASCII, in UTF-8 too, and no part of a newline (pcre2api, "Newlines"). `from` is
/// at most the length.
pub fn find_past_plain(bytes: &[u8], from: usize) -> usize
    requires { from ≤ length bytes.now }
    ensures { IsLeast (IsOther bytes.now) from (length bytes.now) result }
{
    scan::least(&PastPlain { bytes }, from, bytes.len())
}

// The places whose byte is another.
#[derive(Drop)]
struct PastPlain<'a> {
    bytes: &'a [u8],
}

impl<'a> Probe for PastPlain<'a> {
    ghost places = { λ s. length s.bytes.now };

    ghost hit = { λ s. IsOther s.bytes.now };

    #[inline(always)]
    fn lanes(&self, i: usize) -> u8x32 {
        let v = load(self.bytes, i);
        either(at_most(v, 13), at_least(v, 128))
    }

    #[inline(always)]
    fn confirm(&self, i: usize) -> bool {
        let byte = self.bytes[i];
        byte < 14 || 127 < byte
    }
}
