//! Places from which too few bytes of a set stand, or none of them up to an end. The bytes are
//! looked at from the back, so that one tells of all places before it.
ghost use Rattle.std.specs.Prelude.{◌≡◌, ◌≤◌, ◌<◌, ◌+◌, ◌-◌, ℕ, false, length, slice_index};
ghost use Rattle.byte_lanes.specs.Sets.{has_byte};
ghost use Rattle.match_starts.specs.Spans.{IsShort, IsOpen};

use crate::search::first_in;
use byte_lanes::{ByteSet, find_in_set};

/// Where the bytes of a set begin that stand before a place, and not before another.
fn span_begin(bytes: &[u8], from: usize, to: usize, set: &ByteSet) -> usize
    requires ordered { from ≤ to }
    requires within { to ≤ length bytes.now }
    ensures low { from ≤ result }
    ensures high { result ≤ to }
    ensures outside { from < result
        → has_byte set.now (slice_index bytes.now (result - 1)) ≡ false }
{
    let mut at = to;
    'bytes: while at > from && set.has(bytes[at - 1]) {
        at -= 1;
    }
    at
}

/// The first place from one on at which so many bytes of a set stand, or else one past the bytes'
/// end.
pub(crate) fn first_long(bytes: &[u8], from: usize, least: usize, set: &ByteSet) -> usize
    requires within { from ≤ length bytes.now }
    requires some { 0 < least }
    ensures low { from ≤ result }
    ensures high { result ≤ length bytes.now + 1 }
    ensures short { (k : ℕ) → from ≤ k → k < result → IsShort set.now bytes.now least k }
{
    let mut at = from;
    'spans: while bytes.len() - at >= least {
        let begin = span_begin(bytes, at, at + least, set);
        if begin == at {
            return at;
        }
        at = first_in(bytes, begin, bytes.len(), set);
    }
    bytes.len() + 1
}

/// The first place from one on at which so many bytes of a set stand, or more, up to an end, or
/// else one past the bytes' end.
pub(crate) fn first_closed(
    bytes: &[u8],
    from: usize,
    least: usize,
    set: &ByteSet,
    ends: &ByteSet,
) -> usize
    requires within { from ≤ length bytes.now }
    ensures low { from ≤ result }
    ensures high { result ≤ length bytes.now + 1 }
    ensures open { (k : ℕ) → from ≤ k → k < result → IsOpen set.now ends.now bytes.now least k }
{
    let mut at = from;
    'spans: while bytes.len() - at > least {
        let end = find_in_set(bytes, at + least, ends);
        if end == bytes.len() {
            return end + 1;
        }
        let begin = span_begin(bytes, at, end, set);
        if end - begin >= least {
            return begin;
        }
        at = first_in(bytes, begin, bytes.len(), set);
    }
    bytes.len() + 1
}
