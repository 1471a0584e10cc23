//! What a search is asked for, and the bytes that it is made in.
ghost use Rattle.std.specs.Prelude.{◌≡◌, ◌≤◌, ◌<◌, ℕ, true, IsTrue, length, slice_index};
ghost use Rattle.pat_tree.specs.declared.options.PartialMode.TheVariants.{Off};
ghost use Rattle.byte_lanes.specs.Sets.{has_byte};
ghost use Rattle.ordered_search.specs.Setting.{lower_of};
ghost use Rattle.match_starts.specs.Bytes.{AreBytes, IsByteOutside};

use byte_lanes::{ByteSet, find_in_set};
use match_items::View;
use pat_tree::PartialMode;

/// Whether partial matches are not looked for.
pub fn is_off(view: &View<'_>) -> bool
    ensures { IsTrue result → view.now.matching.now.partial ≡ Off }
{
    matches!(view.matching.partial, PartialMode::Off)
}

/// The greatest number of Steps at a place: the pattern may lower that of the match.
pub fn match_limit(view: &View<'_>) -> u32
    ensures { result ≡ lower_of view.now.options.now.match_limit view.now.matching.now.match_limit }
{
    match view.options.match_limit {
        Some(limit) => limit.min(view.matching.match_limit),
        None => view.matching.match_limit,
    }
}

/// A law: what stands in a slice of bytes is below 256.
pub fn are_bytes(bytes: &[u8])
    ensures { AreBytes bytes.now }
{}

/// The first place from one on, and before another, whose byte is in the set, or else the other.
pub fn first_in(bytes: &[u8], from: usize, to: usize, set: &ByteSet) -> usize
    requires ordered { from ≤ to }
    requires within { to ≤ length bytes.now }
    ensures low { from ≤ result }
    ensures high { result ≤ to }
    ensures before { (k : ℕ) → from ≤ k → k < result
        → IsByteOutside set.now (slice_index bytes.now k) }
    ensures found { result < to → has_byte set.now (slice_index bytes.now result) ≡ true }
{
    // In a text with many of its bytes the first one is most often it.
    if from < to && set.has(bytes[from]) {
        return from;
    }
    find_in_set(&bytes[..to], from, set)
}
